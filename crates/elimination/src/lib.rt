// Variable elimination: values by tables over the rows of a listing. What it is stands in specs/.
#![tactic(auto)]
