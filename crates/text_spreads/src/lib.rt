// What (count n) prints, of every text. It stands in specs/.
#![tactic(auto)]
