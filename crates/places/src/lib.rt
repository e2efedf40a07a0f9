//! What proofs of several crates say of places in the code: the definitions and laws of specs/.
#![tactic(auto)]
