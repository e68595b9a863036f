// Demand 2: a result is the only reduced ordered diagram with its meaning. What that says, and the theorems, stand in specs/.
#![tactic(auto)]
