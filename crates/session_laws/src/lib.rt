// Every line keeps a session good, and what the answers of a text are. The laws stand in specs/.
#![tactic(auto)]
