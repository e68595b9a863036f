// The reply to a line by its tree, and the answers of a text by the trees of its lines. What they are stands in specs/.
#![tactic(auto)]
