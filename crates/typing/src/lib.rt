//! Types of a sheet (document 02, request 6): when a sheet and the types lent beside it pass the check, and what then never happens. The crate is
//! there for the definitions and laws of specs/.
#![tactic(auto)]
