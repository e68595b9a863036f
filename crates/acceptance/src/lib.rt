// A form read again as a reward is accepted (document 02, L2). What is said, and the theorems, stand in specs/.
#![tactic(auto)]
