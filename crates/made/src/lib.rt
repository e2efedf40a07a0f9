//! What a tool answers that writes bytes at the front of an output which it is lent.
#![tactic(auto)]

use refusal::Refusal;

/// How many bytes were written, at the front of the output; or a refusal, and none was.
pub type Made = Result<usize, Refusal>;
