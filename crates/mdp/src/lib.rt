// Models, backups, and runs of backups, cuts and reductions. What they are stands in specs/.
#![tactic(auto)]
