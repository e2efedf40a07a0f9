//! Where a refusal was met: how many nodes its chain has, and the node that wrote first.
ghost use Rattle.std.specs.Prelude.{◌≡◌, ◌≤◌};
ghost use Rattle.outcome.specs.Outcome.{len_of, start_of};
ghost use Rattle.rules.specs.Numbers.{chain_limit};
ghost use Rattle.walk.specs.Call.Explained.{nowhere};

use outcome::Answer;

/// Where a refusal was met: how many nodes its chain has, which then stand from byte 65,487 of the arena on, the root first, none of a refusal
/// from before the walk; and one more than the number of the node that wrote first, or 0.
#[derive(Clone, Copy, Debug, PartialEq, Eq)]
pub struct Met {
    pub depth: u8,
    pub first: u16,
}

/// In no node: a success, or a refusal from before the walk.
pub fn nowhere() -> Met
    ensures { result ≡ nowhere }
{
    Met { depth: 0, first: 0 }
}

/// Where the refusal that an answer is was met.
pub fn met_at(answer: Answer) -> Met
    requires { len_of answer ≤ chain_limit }
    ensures { result ≡ record { depth = len_of answer; first = start_of answer } }
{
    Met {
        depth: answer.len() as u8,
        first: answer.start() as u16,
    }
}
