//! What a get or a put answers within a walk: one number, which a register holds.
#![tactic(auto)]

ghost use Rattle.std.specs.Prelude.{◌≡◌};
ghost use Rattle.refusal.specs.Refusal.{number_of};
ghost use Rattle.outcome.specs.Outcome.{
  done_as,
  refused_by,
  Refuses,
  is_refusal,
  code_of,
  len_of,
  start_of,
  steps_of,
  deeper_as,
  later_as,
};

use refusal::Refusal;
use std::marker::Model;

const LEN: usize = 256;

const START: usize = 16777216;

const STEPS: usize = 1099511627776;

/// An answer: a success or a refusal. Its low byte is the refusal's number, or 0 for a success; then the length of the value that was got (16
/// bits), where it starts (16 bits) and the steps taken (24 bits) stand above it. A put that succeeds has got nothing: length and start are 0. In
/// the length's place a refusal has how many nodes its chain has, and in the start's, one more than the number of the node that wrote first, or 0.
#[derive(Clone, Copy, Debug, PartialEq, Eq)]
pub struct Answer {
    bits: usize,
}

impl Model for Answer {
    ghost use Rattle.std.specs.Prelude.{ℕ};
    ghost use Rattle.outcome.specs.Outcome.{Numbered};

    ghost Value = { ℕ };

    ghost view = { λ a. a.bits };

    ghost invariant = { λ a. Numbered a.bits };

    ghost inverse = { λ n. record { bits = n } };
}

impl Answer {
    /// A value was got, or a view was put back, in so many steps. Of numbers that do not fit, what fits is kept.
    #[tactic(auto, using(crate::proofs::Numbers::done_answer))]
    pub fn done(start: usize, len: usize, steps: usize) -> Answer
        ensures { result ≡ done_as start len steps }
    {
        let bits = done(start, len, steps);
        Answer { bits }
    }

    /// A refusal.
    #[tactic(auto, using(crate::proofs::Numbers::refused_numbered))]
    pub fn refused(refusal: Refusal) -> Answer
        ensures { result ≡ number_of refusal }
    {
        let bits = refused(refusal.number());
        Answer { bits }
    }

    /// A refusal for the sake of what the node `first` wrote.
    #[tactic(auto, using(crate::proofs::Numbers::by_answer))]
    pub fn refused_by(refusal: Refusal, first: u8) -> Answer
        ensures { result ≡ refused_by (number_of refusal) first }
    {
        let bits = refused_by(refusal.number(), first);
        Answer { bits }
    }

    /// Whether it is a refusal.
    pub fn is_refused(self) -> bool
        ensures { result ≡ is_refusal self }
    {
        is_refused(self.bits)
    }

    /// The refusal that it is; `None` for a success.
    #[tactic(auto, using(crate::proofs::Numbers::read_refusal))]
    pub fn refusal(self) -> Option<Refusal>
        ensures { Refuses self result }
    {
        Refusal::try_from(code_of(self.bits)).ok()
    }

    /// The length of the value that was got.
    pub fn len(self) -> usize
        ensures { result ≡ len_of self }
    {
        len_of(self.bits)
    }

    /// Where it starts.
    pub fn start(self) -> usize
        ensures { result ≡ start_of self }
    {
        start_of(self.bits)
    }

    /// The steps taken.
    pub fn steps(self) -> usize
        ensures { result ≡ steps_of self }
    {
        steps_of(self.bits)
    }

    /// A refusal with one node more in its chain; of a success, one that took no step.
    #[tactic(auto, using(crate::proofs::Numbers::deeper_answer))]
    pub fn deeper(self) -> Answer
        ensures { result ≡ deeper_as self }
    {
        let bits = deeper(self.bits);
        Answer { bits }
    }

    /// The same answer where `n` steps more were taken before; a refusal is as it was.
    #[tactic(auto, using(crate::proofs::Numbers::later_answer))]
    pub fn later(self, n: usize) -> Answer
        ensures { result ≡ later_as self n }
    {
        let bits = later(self.bits, n);
        Answer { bits }
    }
}

// The same of a number, whether it is that of an answer or not: where its low byte is not 0, it is a refusal's, even if none has that number.

/// A value was got, or a view was put back, in so many steps. Of numbers that do not fit, what fits is kept.
#[tactic(auto, unfolding(crate::specs::Outcome::done_as))]
pub fn done(start: usize, len: usize, steps: usize) -> usize
    ensures { result ≡ done_as start len steps }
{
    LEN * (len % 65536) + START * (start % 65536) + STEPS * (steps % 16777216)
}

/// A refusal, by its number, which is not 0.
pub fn refused(code: u8) -> usize
    ensures { result ≡ code }
{
    usize::from(code)
}

/// A refusal, by its number, which is not 0, for the sake of what the node `first` wrote.
#[tactic(auto, unfolding(crate::specs::Outcome::refused_by))]
pub fn refused_by(code: u8, first: u8) -> usize
    ensures { result ≡ refused_by code first }
{
    refused(code) + START * (usize::from(first) + 1)
}

/// Whether an answer is a refusal.
#[tactic(auto, unfolding(crate::specs::Outcome::is_refusal))]
pub fn is_refused(answer: usize) -> bool
    ensures { result ≡ is_refusal answer }
{
    0 < answer % LEN
}

/// The number of a refusal.
#[tactic(auto, unfolding(crate::specs::Outcome::code_of))]
pub fn code_of(answer: usize) -> u8
    ensures { result ≡ code_of answer }
{
    (answer % LEN) as u8
}

/// The length of the value that was got.
#[tactic(auto, unfolding(crate::specs::Outcome::len_of))]
pub fn len_of(answer: usize) -> usize
    ensures { result ≡ len_of answer }
{
    (answer / LEN) % 65536
}

/// Where it starts.
#[tactic(auto, unfolding(crate::specs::Outcome::start_of))]
pub fn start_of(answer: usize) -> usize
    ensures { result ≡ start_of answer }
{
    (answer / START) % 65536
}

/// The steps taken.
#[tactic(auto, unfolding(crate::specs::Outcome::steps_of))]
pub fn steps_of(answer: usize) -> usize
    ensures { result ≡ steps_of answer }
{
    (answer / STEPS) % 16777216
}

/// A refusal with one node more in its chain.
#[tactic(auto, using(crate::proofs::Numbers::deeper_laws), unfolding(crate::specs::Outcome::deeper_as, crate::specs::Outcome::code_of))]
pub fn deeper(answer: usize) -> usize
    ensures { result ≡ deeper_as answer }
{
    let nodes = (len_of(answer) + 1) % 65536;
    answer % LEN + LEN * nodes + START * start_of(answer)
}

/// The same answer where `n` steps more were taken before; a refusal is as it was.
#[tactic(auto, using(crate::specs::Outcome::steps_small, crate::specs::Outcome::later_refused, crate::specs::Outcome::later_done))]
pub fn later(answer: usize, n: usize) -> usize
    ensures { result ≡ later_as answer n }
{
    if is_refused(answer) {
        return answer;
    }
    done(
        start_of(answer),
        len_of(answer),
        n % 16777216 + steps_of(answer),
    )
}
