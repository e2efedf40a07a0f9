//! Nodes: the record of one read, judged and decoded (document 01, "Sheet records"; docs/SHEETS.md, "All kinds on one page").
#![tactic(auto)]

ghost use Rattle.std.specs.Prelude.{◌≡◌, ◌+◌, ◌*◌, ◌<◌, ◌≤◌, ◌&&◌, ltb, leb, length, get_or};
ghost use Rattle.node.specs.declared.Node.TheVariants.{ListCase, TruthCase, Each};
ghost use Rattle.node.specs.Kinds.{node_in_range};
ghost use Rattle.node.specs.Decoding.{node_of, node_at, kind_width};
ghost use Rattle.node.specs.Wide.{wide_bytes};

/// A node of a sheet: one variant a kind, 10 to 1D in order. Numbers of nodes, sections and variables are `usize`.
#[derive(Clone, Copy, Debug, PartialEq, Eq)]
pub enum Node {
    Var(usize),
    False,
    True,
    Empty,
    Number(u16),
    Front {
        first: usize,
        rest: usize,
    },
    Pair {
        left: usize,
        right: usize,
    },
    ListCase {
        subject: usize,
        empty: usize,
        empty_test: u8,
        front: usize,
        front_test: u8,
        first: usize,
        rest: usize,
    },
    TruthCase {
        subject: usize,
        no: usize,
        no_test: u8,
        yes: usize,
        yes_test: u8,
    },
    Split {
        subject: usize,
        inner: usize,
    },
    Call {
        section: usize,
        first: usize,
        second: usize,
    },
    Add {
        node: usize,
        amount: u16,
    },
    Each {
        subject: usize,
        section: usize,
        variable: usize,
        default: usize,
    },
    Wide(u32),
}

// The bytes of a node record, the kind byte with them: kinds 10 to 1D in order.
const WIDTHS: [u8; 14] = [2, 1, 1, 1, 3, 3, 3, 8, 6, 3, 4, 4, 5, 5];

/// The bytes of a node record of this kind; 0 where no node has the kind. It is 0 and no `None`, since all callers but one go on with it: such a
/// record has no byte.
pub fn record_width(kind: u8) -> usize
    ensures { result ≡ kind_width kind }
{
    if kind < 0x10 {
        return 0;
    }
    let k = usize::from(kind) - 0x10;
    if 14 <= k {
        return 0;
    }
    usize::from(WIDTHS[k])
}

// Byte i of a record; 0 where the bytes end before it.
fn byte_at(r: &[u8], i: usize) -> u8
    ensures { result ≡ get_or r.now i 0 }
{
    if i < r.len() { r[i] } else { 0 }
}

// The same as a number of a node, section or variable.
fn at(r: &[u8], i: usize) -> usize
    ensures { result ≡ get_or r.now i 0 }
{
    usize::from(byte_at(r, i))
}

// Bytes i and i + 1 of a record as a number, high byte first.
fn pair_at(r: &[u8], i: usize) -> u16
    requires { i ≤ 10 }
    ensures { result ≡ 256 * get_or r.now i 0 + get_or r.now (i + 1) 0 }
{
    value::number(byte_at(r, i), byte_at(r, i + 1))
}

// Bytes i to i + 3 of a record as a number, high byte first.
fn four_at(r: &[u8], i: usize) -> u32
    requires { i ≤ 8 }
    ensures { result ≡ 65536 * (256 * get_or r.now i 0 + get_or r.now (i + 1) 0) +
        (256 * get_or r.now (i + 2) 0 + get_or r.now (i + 2 + 1) 0) }
{
    u32::from_be_bytes([
        byte_at(r, i),
        byte_at(r, i + 1),
        byte_at(r, i + 2),
        byte_at(r, i + 3),
    ])
}

// The list case (17) whose record these bytes begin with.
fn list_case(r: &[u8]) -> Node
    ensures { result ≡ ListCase (get_or r.now 1 0) (get_or r.now 2 0) (get_or r.now 3 0)
        (get_or r.now 4 0) (get_or r.now 5 0) (get_or r.now 6 0) (get_or r.now 7 0) }
{
    Node::ListCase {
        subject: at(r, 1),
        empty: at(r, 2),
        empty_test: byte_at(r, 3),
        front: at(r, 4),
        front_test: byte_at(r, 5),
        first: at(r, 6),
        rest: at(r, 7),
    }
}

// The truth case (18).
fn truth_case(r: &[u8]) -> Node
    ensures { result ≡ TruthCase (get_or r.now 1 0) (get_or r.now 2 0) (get_or r.now 3 0)
        (get_or r.now 4 0) (get_or r.now 5 0) }
{
    Node::TruthCase {
        subject: at(r, 1),
        no: at(r, 2),
        no_test: byte_at(r, 3),
        yes: at(r, 4),
        yes_test: byte_at(r, 5),
    }
}

// The each (1C).
fn each(r: &[u8]) -> Node
    ensures { result ≡ Each (get_or r.now 1 0) (get_or r.now 2 0) (get_or r.now 3 0) (get_or r.now 4 0) }
{
    Node::Each {
        subject: at(r, 1),
        section: at(r, 2),
        variable: at(r, 3),
        default: at(r, 4),
    }
}

// The node whose whole record these bytes begin with; `False` where no node has the kind, as the contract of `node_at` has it. The kind is told
// by its byte, as document 01 asks.
fn decode(r: &[u8]) -> Node
    requires { (1 ≤ length r.now) × (kind_width (get_or r.now 0 0) ≤ length r.now) }
    ensures { result ≡ node_of r.now }
{
    let kind = byte_at(r, 0);
    match kind {
        0x10 => Node::Var(at(r, 1)),
        0x11 => Node::False,
        0x12 => Node::True,
        0x13 => Node::Empty,
        0x14 => Node::Number(pair_at(r, 1)),
        0x15 => Node::Front {
            first: at(r, 1),
            rest: at(r, 2),
        },
        0x16 => Node::Pair {
            left: at(r, 1),
            right: at(r, 2),
        },
        0x17 => list_case(r),
        0x18 => truth_case(r),
        0x19 => Node::Split {
            subject: at(r, 1),
            inner: at(r, 2),
        },
        0x1A => Node::Call {
            section: at(r, 1),
            first: at(r, 2),
            second: at(r, 3),
        },
        0x1B => Node::Add {
            node: at(r, 1),
            amount: pair_at(r, 2),
        },
        0x1C => each(r),
        0x1D => Node::Wide(four_at(r, 1)),
        _ => Node::False,
    }
}

/// The node whose record starts at byte `at` of a sheet; `False` where no whole record of a known kind stands there.
pub fn node_at(s: &[u8], at: usize) -> Node
    ensures { result ≡ node_at s.now at }
{
    if s.len() <= at {
        return Node::False;
    }
    if s.len() - at < record_width(s[at]) {
        return Node::False;
    }
    decode(&s[at..])
}

/// Byte i of the record that starts at byte `at` of a sheet; 0 where the sheet ends before it.
pub fn byte_of(s: &[u8], at: u16, i: u16) -> u8
    ensures { result ≡ get_or s.now (at + i) 0 }
{
    byte_at(s, usize::from(at) + usize::from(i))
}

/// The same as a number of a node, section or variable.
pub fn number_of(s: &[u8], at: u16, i: u16) -> usize
    ensures { result ≡ get_or s.now (at + i) 0 }
{
    usize::from(byte_of(s, at, i))
}

/// The value of the constant of four bytes (1D) whose record starts at byte `at` of a sheet: the kind 06, and the record's four.
pub fn wide_bytes(s: &[u8], at: u16) -> [u8; 5]
    ensures { result ≡ wide_bytes s.now at }
{
    [
        6,
        byte_of(s, at, 1),
        byte_of(s, at, 2),
        byte_of(s, at, 3),
        byte_of(s, at, 4),
    ]
}

// Whether byte i of a record is the number of a node behind node `own`.
fn is_below(r: &[u8], i: usize, own: usize, nodes: usize) -> bool
    ensures { result ≡ ltb own (get_or r.now i 0) && ltb (get_or r.now i 0) nodes }
{
    let n = at(r, i);
    own < n && n < nodes
}

// Whether bytes i and i + 1 are.
fn both_below(r: &[u8], i: usize, own: usize, nodes: usize) -> bool
    requires { i ≤ 10 }
    ensures { result ≡ (ltb own (get_or r.now i 0) && ltb (get_or r.now i 0) nodes) &&
        (ltb own (get_or r.now (i + 1) 0) && ltb (get_or r.now (i + 1) 0) nodes) }
{
    is_below(r, i, own, nodes) & is_below(r, i + 1, own, nodes)
}

// Whether byte i is, and byte i + 1 is a test: a branch.
fn is_branch(r: &[u8], i: usize, own: usize, nodes: usize) -> bool
    requires { i ≤ 10 }
    ensures { result ≡ (ltb own (get_or r.now i 0) && ltb (get_or r.now i 0) nodes) && leb (get_or r.now (i + 1) 0) 6 }
{
    is_below(r, i, own, nodes) & (byte_at(r, i + 1) <= 6)
}

// Whether each number in the record of node `own`, which these bytes begin with, is in its range. The node is not decoded for it: every call reads
// every node of its sheet once.
fn body_in_range(r: &[u8], own: usize, nodes: usize, sections: usize) -> bool
    requires { (1 ≤ length r.now) × (kind_width (get_or r.now 0 0) ≤ length r.now) }
    ensures { result ≡ node_in_range nodes sections own (node_of r.now) }
{
    let kind = byte_at(r, 0);
    match kind {
        0x10 => true,
        0x11 => true,
        0x12 => true,
        0x13 => true,
        0x14 => pair_at(r, 1) <= 65535,
        0x15 => both_below(r, 1, own, nodes),
        0x16 => both_below(r, 1, own, nodes),
        0x17 => is_below(r, 1, own, nodes)
            & is_branch(r, 2, own, nodes)
            & is_branch(r, 4, own, nodes)
            & both_below(r, 6, own, nodes),
        0x18 => is_below(r, 1, own, nodes)
            & is_branch(r, 2, own, nodes)
            & is_branch(r, 4, own, nodes),
        0x19 => both_below(r, 1, own, nodes),
        0x1A => at(r, 1) < sections,
        0x1B => is_below(r, 1, own, nodes) & (pair_at(r, 2) <= 65535),
        0x1C => is_below(r, 1, own, nodes) & (at(r, 2) < sections) & is_below(r, 4, own, nodes),
        0x1D => is_wide(four_at(r, 1)),
        _ => true,
    }
}

// Whether a number of four bytes is one that two do not hold.
fn is_wide(v: u32) -> bool
    ensures { result ≡ ltb 65535 v && leb v 4294967295 }
{
    (65535 < v) & (v <= 4294967295)
}

/// Whether each number in the record of node `own`, which starts at byte `at` of a sheet, is in its range; yes where no whole record stands there.
pub fn record_in_range(s: &[u8], at: usize, own: usize, nodes: usize, sections: usize) -> bool
    ensures { result ≡ node_in_range nodes sections own (node_at s.now at) }
{
    if s.len() <= at {
        return true;
    }
    if s.len() - at < record_width(s[at]) {
        return true;
    }
    body_in_range(&s[at..], own, nodes, sections)
}
