// What the contracts of the box come to. No code: the theorems are in proofs/, over the definitions that the contracts cite.
#![tactic(auto)]
