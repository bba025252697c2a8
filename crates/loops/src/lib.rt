// No code: the vocabulary of the definitions (specs/) and its laws (proofs/).
#![tactic(auto)]
