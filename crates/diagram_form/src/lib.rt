// The diagram as a form (document 02, L2). What it is, and the theorems, stand in specs/.
#![tactic(auto)]
