// Specs alone: the rules of inference are sound, tree by tree, and whether a line follows is decided.
#![tactic(auto)]
