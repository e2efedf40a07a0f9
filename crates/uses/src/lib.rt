//! Which node is used twice (81): the crate is there for the law of specs/.
#![tactic(auto)]
