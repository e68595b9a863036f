// Paths that contradict themselves by equality. What they are stands in specs/.
#![tactic(auto)]
