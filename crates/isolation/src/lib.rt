// Demand 3, isolation: an answer of the classifier or of the gate depends on what document 01 names and on nothing else. There is no code
// here: the definitions and their laws stand above `packet` and `gate`, which do not rest on them.
#![tactic(auto)]
