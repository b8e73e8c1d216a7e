// The rules of document 01 as tests on two or three keys, and why each test says exactly what its rule says. This crate has no code.
#![tactic(auto)]
