//! The nodes of a sheet in preorder, which fixes one numbering for it (document 02, request 12). The crate is there for the definitions and laws of specs/.
#![tactic(auto)]
