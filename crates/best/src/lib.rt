// Which move to make. What it is stands in specs/.
#![tactic(auto)]
