// What every session names is declared (document 02, L2). What is said, and the theorems, stand in specs/.
#![tactic(auto)]
