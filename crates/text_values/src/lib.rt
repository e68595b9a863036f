// What the printed values of a text stand for. It stands in specs/.
#![tactic(auto)]
