// Specs alone: what a reduced profile is (document 02, request 3), with a law for each turn and each return of the code that makes it.
#![tactic(auto)]
