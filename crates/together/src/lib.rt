//! What calls one after the other answer together, and how the last of them is judged.
#![tactic(auto)]

mod last;
mod second;

pub use last::returned;
use refusal::Refusal;
pub use second::judged;

/// What calls one after the other answer: the steps of two of them, or a refusal of one. The third case is there to be ruled
/// out: a list that was taken back and does not stand, an unedited list that moved something, or an edit that was not taken
/// back. Only the last can be met, with a sheet that chooses (`trips::put_and_undo`).
#[derive(Clone, Copy, Debug, PartialEq, Eq)]
pub enum Trip {
    Kept { first: usize, second: usize },
    Stopped(Refusal),
    Broken,
}
