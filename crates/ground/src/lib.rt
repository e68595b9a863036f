// Ground listings with equal numbers. What they are stands in specs/.
#![tactic(auto)]
