// Which move (best) prints, of every text. It stands in specs/.
#![tactic(auto)]
