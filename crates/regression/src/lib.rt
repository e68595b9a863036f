// Regression and freeing of parameters: what they are stands in specs/. Either answers the result's rows, or why it is refused.
#![tactic(auto)]
