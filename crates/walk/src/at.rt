//! Where a walk is: how deep, how many steps it has left, where the stack goes on, and how many cells there are; and the node that it is in.
ghost use Rattle.std.specs.Prelude.{◌≡◌, ◌+◌, ◌≤◌};
ghost use Rattle.outcome.specs.Outcome.{len_of, start_of, steps_of};
ghost use Rattle.rules.specs.Numbers.{scratch_size, variable_limit};
ghost use Rattle.walk.specs.Moves.{below_of, raised_of, after_of, behind_of, with_cells_of};

use outcome::Answer;

/// Where the record of each node starts in the sheet.
pub type Table = [u16; 200];

/// The node that a walk is in: its number, the byte of the sheet at which its record starts, and its kind byte.
#[derive(Clone, Copy, Debug, PartialEq, Eq)]
pub struct Pos {
    pub node: usize,
    pub from: u16,
    pub kind: u8,
}

/// Where a walk is: the levels and the steps that are left, the top of the stack, and the number of cells (a get has no use for them).
#[derive(Clone, Copy, Debug, PartialEq, Eq)]
pub struct At {
    pub levels: usize,
    pub left: usize,
    pub top: usize,
    pub cells: usize,
}

impl At {
    /// In a node that was entered: a level down, its step paid.
    pub fn below(self) -> At
        requires { (1 ≤ self.levels) × (1 ≤ self.left) }
        ensures { result ≡ below_of self }
    {
        At {
            levels: self.levels - 1,
            left: self.left - 1,
            ..self
        }
    }

    /// With the top raised by n bytes.
    pub fn raised(self, n: usize) -> At
        requires { self.top + n ≤ scratch_size }
        ensures { result ≡ raised_of self n }
    {
        At {
            top: self.top + n,
            ..self
        }
    }

    /// After the steps of an answer.
    pub fn after(self, answer: Answer) -> At
        requires { steps_of answer ≤ self.left }
        ensures { result ≡ after_of self answer }
    {
        At {
            left: self.left - answer.steps(),
            ..self
        }
    }

    /// After the steps of a get, with the top behind its value.
    pub fn behind(self, got: Answer) -> At
        requires { steps_of got ≤ self.left }
        ensures { result ≡ behind_of self got }
    {
        let end = got.start() + got.len();
        if end < self.top {
            return self.after(got);
        }
        At {
            left: self.left - got.steps(),
            top: end,
            ..self
        }
    }

    /// With n cells more.
    pub fn with_cells(self, n: usize) -> At
        requires { self.cells + n ≤ variable_limit }
        ensures { result ≡ with_cells_of self n }
    {
        At {
            cells: self.cells + n,
            ..self
        }
    }
}
