//! JSON text (RFC 8259) as a notation for values (document 02, request 11): which text a value is, which value a text is. The crate is there for the
//! definitions and laws of specs/.
#![tactic(auto)]
