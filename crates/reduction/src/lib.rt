// Reduction by model checking: edges on no winning path go to leaf 0. What it is stands in specs/; it answers how many rows are left, or why it is refused.
#![tactic(auto)]
