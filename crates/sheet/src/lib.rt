//! Sheets: records of bytes read and judged (document 01, "Sheet records"; docs/SHEETS.md, "Records").
#![tactic(auto)]

ghost use Rattle.std.specs.Prelude.{◌≡◌, ◌≤◌, length, drop};
ghost use Rattle.sheet.specs.Sheet.{read_body, read_header, read_sheet};
ghost use Rattle.sheet.specs.Parts.{part_at, with_node, children_at};
ghost use Rattle.value.specs.Result.{ok, map_result};
ghost use Rattle.value.specs.Numbered.{numbered};
ghost use Rattle.sheet.specs.Table.{section_at, table_of, NodesTable, RootsJudged, NodesJudged, SheetJudged};

use node::{byte_of, record_in_range, record_width};
use refusal::Refusal;

/// What reading a sheet gives: how many variables its plan has, its root node, how many sections and nodes it has, and the byte where each
/// node's record starts, in file order, with zeros behind. It is an array with a count, since the core has no heap.
#[derive(Clone, Copy, Debug, PartialEq, Eq)]
pub struct Table {
    pub k: usize,
    pub root: usize,
    pub sections: usize,
    pub nodes: usize,
    pub starts: [u16; 200],
}

// What each byte of a node record is: kinds 10 to 1D in order, a hexadecimal digit a byte, the kind byte's digit last.
const PARTS: [u32; 14] = [
    0, // 10
    0, // 11
    0, // 12
    0, // 13
    0, // 14
    0x110, // 15
    0x110, // 16
    0x11010110, // 17
    0x10110, // 18
    0x110, // 19
    0x20, // 1A
    0x10, // 1B
    0x10210, // 1C
    0, // 1D
];

/// What a byte of a record is: a node's number, a section's, or neither (0).
pub const NODE: u8 = 1;

pub const SECTION: u8 = 2;

/// What byte i of a node record of this kind is.
pub fn part(kind: u8, i: u16) -> u8
    ensures { result ≡ part_at kind i }
{
    if kind < 0x10 {
        return 0;
    }
    if 0x1E <= kind {
        return 0;
    }
    if 8 <= i {
        return 0;
    }
    let parts = PARTS[usize::from(kind) - 0x10];
    ((parts >> (4 * u32::from(i))) % 16) as u8
}

/// The nodes that a record names, in body order: `count` numbers, at the front of `nodes`, with zeros behind them. It is an array with a count,
/// since the core has no heap.
#[derive(Clone, Copy, Debug, PartialEq, Eq)]
pub struct Children {
    pub count: usize,
    pub nodes: [u8; 8],
}

// With one byte more of a record, where that is a node's number.
#[tactic(auto, unfolding(crate::specs::Parts::with_node))]
fn with_node(c: Children, part: u8, b: u8) -> Children
    ensures { result ≡ with_node c part b }
{
    if part != NODE {
        return c;
    }
    let count = c.count;
    if 8 <= count {
        return c;
    }
    let mut nodes = c.nodes;
    nodes[count] = b;
    Children {
        count: count + 1,
        nodes,
    }
}

/// The nodes named by the record that starts at byte `at` of a sheet.
pub fn children_at(s: &[u8], at: u16) -> Children
    ensures { result ≡ children_at s.now at }
{
    let kind = byte_of(s, at, 0);
    let width = record_width(kind);
    let mut c = Children {
        count: 0,
        nodes: [0; 8],
    };
    for i in 0..width as u16 {
        c = with_node(c, part(kind, i), byte_of(s, at, i));
    }
    c
}

/// The root of section `i`; 0 where the sheet ends before it. It is 0 and no `None`, since callers ask for sections of a sheet that was read, and
/// those are there.
#[tactic(auto, unfolding(crate::specs::Table::section_at))]
pub fn section_root(s: &[u8], i: usize) -> usize
    ensures { result ≡ section_at s.now i }
{
    if s.len() / 2 <= i {
        return 0;
    }
    let at = 4 + 2 * i;
    if s.len() <= at {
        return 0;
    }
    usize::from(s[at])
}

// The table of a sheet whose header and sections are read: one pass over the node records.
fn read_nodes(s: &[u8], k: usize, root: usize, sections: usize) -> Result<Table, Refusal>
    requires { sections ≤ 8 }
    ensures { NodesTable s.now k root sections (numbered result) }
{
    let mut starts = [0u16; 200];
    let mut n: usize = 0;
    let mut at = 3 + 2 * sections;
    // no `for`: where the next record begins comes from the one read
    while at < s.len() {
        let width = record_width(s[at]);
        if width == 0 {
            return Err(Refusal::SheetKind);
        }
        if n == 200 {
            return Err(Refusal::SheetFull);
        }
        if s.len() - at < width {
            return Err(Refusal::SheetCut);
        }
        starts[n] = at as u16;
        n += 1;
        at += width;
    }
    if n == 0 {
        return Err(Refusal::SheetEmpty);
    }
    Ok(Table {
        k,
        root,
        sections,
        nodes: n,
        starts,
    })
}

// The table of a sheet whose header is whole: one pass over the section records, and then the nodes.
fn read_sections(s: &[u8]) -> Result<Table, Refusal>
    requires { 3 ≤ length s.now }
    ensures { numbered result ≡ map_result table_of (read_body (drop 1 s.now)) }
{
    let k = usize::from(s[1]);
    let root = usize::from(s[2]);
    let mut n: usize = 0;
    let mut at: usize = 3;
    // no `for`: the first byte of the next record says whether it is a section's
    while at < s.len() {
        if s[at] != 0x20 {
            return read_nodes(s, k, root, n);
        }
        if n == 8 {
            return Err(Refusal::SheetFull);
        }
        if s.len() - at == 1 {
            return Err(Refusal::SheetCut);
        }
        n += 1;
        at += 2;
    }
    Err(Refusal::SheetEmpty)
}

// The table of a sheet's records, whose numbers are not judged yet.
fn read_records(s: &[u8]) -> Result<Table, Refusal>
    ensures { numbered result ≡ map_result table_of (read_header s.now) }
{
    if s.len() == 0 {
        return Err(Refusal::SheetEmpty);
    }
    if s[0] != 0x01 {
        return Err(Refusal::SheetKind);
    }
    if s.len() < 3 {
        return Err(Refusal::SheetCut);
    }
    read_sections(s)
}

// Whether the root of each section is a node.
fn roots_in_range(s: &[u8], sections: usize, nodes: usize) -> bool
    ensures { RootsJudged s.now sections nodes result }
{
    for i in 0..sections {
        if nodes <= section_root(s, i) {
            return false;
        }
    }
    true
}

// Whether the numbers of each node are in their ranges.
fn nodes_in_range(s: &[u8], t: Table) -> bool
    requires { t.nodes ≤ 200 }
    ensures { NodesJudged s.now t result }
{
    for i in 0..t.nodes {
        if !record_in_range(s, usize::from(t.starts[i]), i, t.nodes, t.sections) {
            return false;
        }
    }
    true
}

// Whether every number of a sheet is in its range: one pass over the records of this table.
fn all_in_range(s: &[u8], t: Table) -> bool
    requires { ok t ≡ map_result table_of (read_header s.now) }
    ensures { SheetJudged s.now result }
{
    (1 <= t.k)
        & (t.k <= 16)
        & (t.root < t.nodes)
        & roots_in_range(s, t.sections, t.nodes)
        & nodes_in_range(s, t)
}

/// Read a sheet: its records, one by one, and then their numbers.
pub fn read_sheet(s: &[u8]) -> Result<Table, Refusal>
    ensures { numbered result ≡ map_result table_of (read_sheet s.now) }
{
    let t = read_records(s)?;
    if !all_in_range(s, t) {
        return Err(Refusal::SheetRange);
    }
    Ok(t)
}
