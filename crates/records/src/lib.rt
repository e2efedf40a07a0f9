//! The records of a sheet, written into a buffer that the caller lends, its nodes and sections under other numbers. As in `report`, each
//! function takes the buffer and the place, and gives the place behind what it wrote.
#![tactic(auto)]

ghost use Rattle.std.specs.Prelude.{◌≡◌, get_or};
ghost use Rattle.records.specs.Anew.{chosen_of, record_of, records_of, named, sections_of, shifted_by};
ghost use Rattle.report.specs.Writing.{Wrote};

use sheet::Table;

// No heap in the core: so `count` beside an array, and no Vec.
/// How a sheet is written anew: these nodes, `count` of them, at the front of `order`; and the new number of each node and of each section.
#[derive(Clone, Copy, Debug, PartialEq, Eq)]
pub struct Anew {
    pub count: usize,
    pub order: [u8; 256],
    pub nodes: [u8; 256],
    pub sections: [u8; 256],
}

/// Each number raised by `by`; those over 255 start again at 0.
pub fn shifted(by: u8) -> [u8; 256]
    ensures { result ≡ shifted_by by }
{
    let mut numbers = [0u8; 256];
    for i in 0..256 {
        numbers[i] = ((usize::from(by) + i) % 256) as u8;
    }
    numbers
}

// What is written for a byte of a record: a node's new number, a section's, or the byte itself.
#[tactic(auto, unfolding(crate::specs::Anew::chosen_of))]
fn chosen(part: u8, byte: u8, node: u8, section: u8) -> u8
    ensures { result ≡ chosen_of part byte node section }
{
    match part {
        sheet::NODE => node,
        sheet::SECTION => section,
        _ => byte,
    }
}

// The record that starts at byte `at` of a sheet.
fn write_record(s: &[u8], at: u16, m: Anew, out: &mut [u8], to: usize) -> usize
    ensures { Wrote (record_of s.now at m) to out.old out.new result }
{
    let kind = node::byte_of(s, at, 0);
    let width = node::record_width(kind) as u16;
    let mut end = report::place(out, to);
    for i in 0..width {
        let b = node::byte_of(s, at, i);
        let k = usize::from(b);
        end = report::byte(
            out,
            end,
            chosen(sheet::part(kind, i), b, m.nodes[k], m.sections[k]),
        );
    }
    end
}

// Entry i of a table; `none` where there is no such entry.
fn entry<T: Copy + Drop>(table: &[T], i: usize, none: T) -> T
    ensures { result ≡ get_or table.now i none }
{
    table.get(i).copied().unwrap_or(none)
}

/// The records of the nodes that `m` names, in its order.
pub fn write_nodes(s: &[u8], t: Table, m: Anew, out: &mut [u8], at: usize) -> usize
    ensures { Wrote (records_of s.now t.starts m (named m)) at out.old out.new result }
{
    let mut end = report::place(out, at);
    for i in 0..m.count {
        let n = entry(&m.order, i, 0);
        let from = entry(&t.starts, usize::from(n), 0);
        end = write_record(s, from, m, out, end);
    }
    end
}

/// The records of a sheet's sections, of which there are `count`.
pub fn write_sections(s: &[u8], count: usize, m: Anew, out: &mut [u8], at: usize) -> usize
    ensures { Wrote (sections_of s.now count m) at out.old out.new result }
{
    let mut end = report::place(out, at);
    for i in 0..count {
        let n = entry(&m.nodes, sheet::section_root(s, i), 0);
        end = report::bytes(out, end, &[0x20, n]);
    }
    end
}
