// What (did action variant object ..) comes to, of every text. It stands in specs/.
#![tactic(auto)]
