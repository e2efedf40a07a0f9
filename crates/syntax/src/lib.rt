//! Sheets as text: the crate is there for the definitions and laws of specs/.
#![tactic(auto)]
