// Lists by what stands at each index: definitions and laws alone, no code.
#![tactic(auto)]
