//! Taking back an edit (document 02, request 13): the crate is there for the laws of specs/.
#![tactic(auto)]
