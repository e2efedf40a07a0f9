//! What a node decides: whether it may be entered, the branch of a case that its subject fits or that a view takes, a view taken apart, what is
//! made of two values, and whether a constant or a written value takes a view.
#![tactic(auto)]

ghost use Rattle.std.specs.Prelude.{◌≡◌, ◌+◌, ltb};
ghost use Rattle.shapes.specs.Parts.{passes_bytes, same_bytes};
ghost use Rattle.outcome.specs.Outcome.{refused_by};
ghost use Rattle.scopes.specs.Scopes.{noted_by};
ghost use Rattle.decisions.specs.Decisions.{
  Enters,
  fits_kind,
  fit_of,
  other_of,
  choice,
  take_of,
  TakenBy,
  apart_of,
  made_of,
  judged,
  unfit_rest,
  fronted_as,
};

use outcome::{Answer, done, is_refused, len_of, refused, steps_of};
use refusal::Refusal;
use shapes::Shape;

// Kinds of nodes and tests are told by their bytes: document 01, "What form each place needs".

/// A branch of a case: one without variables, by the byte of the case's record that has its node, and the one byte of the subject that it
/// stands for; one with two variables, by that byte, and where the subject's second part starts; the one with variables, after a switch to it;
/// or a refusal. The byte behind the node's has its test, but for a split.
#[derive(Clone, Copy, Debug, PartialEq, Eq)]
pub enum Branch {
    Plain(u16, u8),
    Parts(u16, usize),
    Switch,
    Refused(Refusal),
}

/// A view of two parts: where the second starts; or another view.
#[derive(Clone, Copy, Debug, PartialEq, Eq)]
pub enum Apart {
    At(usize),
    Other,
}

/// Whether a node may be entered: refused as too deep where no level is left, then as spent where no step is.
#[tactic(auto, using(crate::specs::DecisionLaws::no_level, crate::specs::DecisionLaws::no_step, crate::specs::DecisionLaws::both_left))]
pub fn entry(levels: usize, left: usize) -> Result<(), Refusal>
    ensures { Enters levels left result }
{
    if levels == 0 {
        return Err(Refusal::Depth);
    }
    if left == 0 {
        return Err(Refusal::Spent);
    }
    Ok(())
}

// The branch, where the case is of that kind.
#[tactic(auto, using(crate::specs::DecisionLaws::on_kind, crate::specs::DecisionLaws::on_other))]
fn on(kind: u8, is: u8, branch: Branch) -> Branch
    ensures { result ≡ fits_kind kind is branch }
{
    if kind == is {
        return branch;
    }
    Branch::Refused(Refusal::ValueKind)
}

/// The branch of a case (17, 18 or 19) that its subject fits; 43 where it fits none.
#[tactic(auto, using(crate::proofs::Tags::fittings))]
pub fn fits(kind: u8, subject: Shape) -> Branch
    ensures { result ≡ fit_of kind subject }
{
    match subject {
        Shape::Empty => on(kind, 0x17, Branch::Plain(2, 2)),
        Shape::Front(mid) => on(kind, 0x17, Branch::Parts(4, mid)),
        Shape::False => on(kind, 0x18, Branch::Plain(2, 0)),
        Shape::True => on(kind, 0x18, Branch::Plain(4, 1)),
        Shape::Pair(mid) => on(kind, 0x19, Branch::Parts(2, mid)),
        _ => Branch::Refused(Refusal::ValueKind),
    }
}

// The second branch of a case whose subject fits the first.
#[tactic(auto, using(crate::specs::DecisionLaws::second_list, crate::specs::DecisionLaws::second_truth))]
fn second(kind: u8) -> Branch
    ensures { result ≡ other_of kind }
{
    if kind == 0x17 {
        return Branch::Switch;
    }
    Branch::Plain(4, 1)
}

// The branch that is kept where its test says yes to the view, or else the other where that one's does; 53 where neither says yes.
#[tactic(auto, using(crate::specs::DecisionLaws::kept_yes, crate::specs::DecisionLaws::other_yes, crate::specs::DecisionLaws::neither_says))]
fn choose(kept: Branch, other: Branch, kept_test: u8, other_test: u8, view: &[u8]) -> Branch
    ensures { result ≡ choice (passes_bytes kept_test view.now) (passes_bytes other_test view.now) kept other }
{
    if shapes::passes(kept_test, view) {
        return kept;
    }
    if shapes::passes(other_test, view) {
        return other;
    }
    Branch::Refused(Refusal::NoBranch)
}

/// The branch of a case that a view takes, where its old subject has that shape: the one that the subject fits where its test says yes, or else
/// the other. A split has one branch and no test.
pub fn takes(kind: u8, subject: Shape, first_test: u8, second_test: u8, view: &[u8]) -> Branch
    ensures value { result ≡ take_of kind subject (passes_bytes first_test view.now) (passes_bytes second_test view.now) }
    ensures taken_by { TakenBy kind subject first_test second_test view.now result }
{
    match fits(kind, subject) {
        Branch::Plain(i, byte) => {
            if i == 2 {
                return choose(
                    Branch::Plain(i, byte),
                    second(kind),
                    first_test,
                    second_test,
                    view,
                );
            }
            choose(
                Branch::Plain(i, byte),
                Branch::Plain(2, 0),
                second_test,
                first_test,
                view,
            )
        }
        Branch::Parts(i, mid) => {
            if i == 2 {
                return Branch::Parts(i, mid);
            }
            choose(
                Branch::Parts(i, mid),
                Branch::Plain(2, 2),
                second_test,
                first_test,
                view,
            )
        }
        _ => Branch::Refused(Refusal::ValueKind),
    }
}

/// A view taken apart for a front (15) or a pair (16).
#[tactic(auto, using(crate::proofs::Tags::apart))]
pub fn take_apart(kind: u8, view: Shape) -> Apart
    ensures { result ≡ apart_of kind view }
{
    match view {
        Shape::Front(mid) => {
            if kind == 0x15 {
                return Apart::At(mid);
            }
            Apart::Other
        }
        Shape::Pair(mid) => {
            if kind == 0x15 {
                return Apart::Other;
            }
            Apart::At(mid)
        }
        _ => Apart::Other,
    }
}

/// The kind of the value that a node makes of two: 3, a list, for a front (15) and a list case (17); 5, a pair, for others.
#[tactic(auto, using(crate::specs::DecisionLaws::made_front, crate::specs::DecisionLaws::made_list, crate::specs::DecisionLaws::made_pair))]
pub fn made(kind: u8) -> u8
    ensures { result ≡ made_of kind }
{
    if matches!(kind, 0x15 | 0x17) {
        return 3;
    }
    5
}

/// A second view for a written variable must equal the first, which its slot's note has the writer of.
#[tactic(auto, using(crate::specs::DecisionLaws::judged_yes, crate::specs::DecisionLaws::judged_no))]
pub fn put_again(note: u16, written: &[u8], view: &[u8]) -> Answer
    ensures { result ≡ judged (refused_by 54 (noted_by note)) (same_bytes written.now view.now) }
{
    if shapes::same(written, view) {
        return Answer::done(0, 0, 0);
    }
    Answer::refused_by(Refusal::Clash, scopes::noted_by(note))
}

/// A view for a constant of these bytes must equal it.
#[tactic(auto, using(crate::specs::DecisionLaws::judged_yes, crate::specs::DecisionLaws::judged_no))]
pub fn put_bytes(constant: &[u8], view: &[u8]) -> Answer
    ensures { result ≡ judged 50 (same_bytes view.now constant.now) }
{
    if shapes::same(view, constant) {
        return Answer::done(0, 0, 0);
    }
    Answer::refused(Refusal::Constant)
}

/// Whether the rest of a rebuilt list (kind 3) is no list, by the kind bytes of both.
#[tactic(auto, using(crate::specs::DecisionLaws::other_kind), unfolding(crate::specs::Decisions::unfit_rest))]
pub fn unfit(kind: u8, rest: u8) -> bool
    ensures { result ≡ unfit_rest kind rest }
{
    kind == 3 && !matches!(rest, 2 | 3)
}

/// Whether a list of `built` bytes so far is too long with `size` bytes more and the 02 that would end it.
pub fn overlong(built: usize, size: usize) -> bool
    ensures { result ≡ ltb 256 (built + size + 1) }
{
    if 256 < built {
        return true;
    }
    if 256 < size {
        return true;
    }
    256 < built + size + 1
}

/// A member that was got, behind its 03 at `top`, in a list of `built` bytes so far; 44 where the list is then too long.
#[tactic(auto, using(crate::specs::DecisionLaws::fronts))]
pub fn fronted(got: Answer, built: usize, top: usize) -> Answer
    ensures { result ≡ fronted_as got built top }
{
    if got.is_refused() {
        return got;
    }
    let size = 1 + got.len();
    if overlong(built, size) {
        return Answer::refused(Refusal::ValueLong);
    }
    Answer::done(top, size, got.steps())
}

/// What `fronted` answers, for any number, whether it is that of an answer or not: where its low byte is not 0, it is a refusal's.
#[tactic(auto, using(crate::specs::DecisionLaws::fronts))]
pub fn fronted_number(got: usize, built: usize, top: usize) -> usize
    ensures { result ≡ fronted_as got built top }
{
    if is_refused(got) {
        return got;
    }
    let size = 1 + len_of(got);
    if overlong(built, size) {
        return refused(Refusal::ValueLong.number());
    }
    done(top, size, steps_of(got))
}
