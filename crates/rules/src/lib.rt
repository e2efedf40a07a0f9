//! The rules of get and put: the crate is there for the definitions and laws of specs/. Its code is the numbers that they name
//! (specs/Numbers.antt), so that each stands once.
#![tactic(auto)]

/// The levels of a walk: a node at depth 49 is refused.
pub const LEVELS: usize = 48;

/// The largest allowance of steps.
pub const ALLOWANCE: usize = 1_000_000;

/// How many times the steps of a get an allowance has to be, for the put of its list to succeed: the levels.
pub const FACTOR: usize = LEVELS;

/// The most variables in scope, and the most cells of a put: a plan's 16, and two more for each level below the root's.
pub const VARIABLES: usize = 110;

/// The bytes of scratch that a call takes.
pub const SCRATCH: usize = 65_536;

/// Where the stack begins in them: behind the plan and a slot for each cell. An answer's bytes stand there at the end.
pub const STACK: usize = 32_256;

/// Where the stack has ended in them, and the chain of a refusal begins.
pub const CHAIN: usize = 65_487;

/// The most nodes of a chain, a byte for each: as many as there are levels, and the one for which none is left.
pub const CHAIN_MAX: usize = 49;

/// The bytes of output that a get takes, which a value has at most, and a put, which a plan has at most.
pub const GET_OUTPUT: usize = 256;

pub const PUT_OUTPUT: usize = 4_096;

/// Where the slots of the cells begin in scratch, behind the plan, and the bytes of a slot.
pub const SLOTS: usize = PUT_OUTPUT;

pub const SLOT: usize = GET_OUTPUT;
