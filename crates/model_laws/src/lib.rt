// Every line of a model keeps a session good. The laws stand in specs/.
#![tactic(auto)]
