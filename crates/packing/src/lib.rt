//! Answers as one number, and what is handed out beside them in numbers and bytes that the caller lends.
#![tactic(auto)]

mod handing;
mod numbers;

pub use handing::{hand, hand_found};
pub use numbers::{low, pack, pack_told, pack_why};
