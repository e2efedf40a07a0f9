//! The letters of the program `tools` that walk: each takes the input, makes its call, and writes its line.
#![tactic(auto)]

mod checks;
mod explanations;
mod puts;

pub use checks::check_line;
pub use explanations::why_line;
pub use puts::put_line;
