// The spread of values over all states of n objects. What it is stands in specs/.
#![tactic(auto)]
