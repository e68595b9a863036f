// A diagram's number with minimum variables. What it is stands in specs/.
#![tactic(auto)]
