// The laws of records and of the walk from the front: specs alone.
#![tactic(auto)]
