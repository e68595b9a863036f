// The diagram of a line of a text, as definitions. What it is stands in specs/.
#![tactic(auto)]
