// Exact fractions, which only definitions and proofs use: no code computes with one.
#![tactic(auto)]
