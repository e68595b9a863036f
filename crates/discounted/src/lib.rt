// The discounted value in fractions. What it is stands in specs/.
#![tactic(auto)]
