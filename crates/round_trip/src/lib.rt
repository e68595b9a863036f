// A diagram's form read again as a reward (document 02, L2). What is said, and the theorems, stand in specs/.
#![tactic(auto)]
