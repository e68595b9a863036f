// Replay of logged lines. What it is stands in specs/.
#![tactic(auto)]
