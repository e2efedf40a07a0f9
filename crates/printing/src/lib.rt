//! Sheets as text: the printer (docs/SHEETS.md, "The text of a sheet").
#![tactic(auto)]

ghost use Rattle.std.specs.Prelude.{◌≡◌, pred, length};
ghost use Rattle.report.specs.Writing.{Wrote};
ghost use Rattle.numbering.specs.Replies.{told, reply_of, output_of};
ghost use Rattle.numbering.specs.Counting.{Fine};
ghost use Rattle.printing.specs.Whole.{Planned, head_text, Lent, SectionsPut, Prints};
ghost use Rattle.printing.specs.Answer.{print_answer};

use crate::nodes::Source;
use crate::pieces::{First, Scope, name, part};
use crate::plain::plain_nodes;
use numbering::{Fault, Numbered};
use refusal::Refusal;
use report::{byte, bytes};
use sheet::Table;

mod nodes;
mod pieces;
mod plain;

/// The bytes of output that a text takes.
pub const OUTPUT: usize = 16_384;

// The plan with the names of its k variables.
fn plan(k: usize, out: &mut [u8], at: usize) -> usize
    ensures { Planned (pred k) at out.old out.new result }
{
    let mut end = bytes(out, at, b"plan a");
    for i in 1..k {
        end = bytes(out, end, b", ");
        end = name(First::A, i, out, end);
    }
    end
}

// The first line of section i, as far as its `=`.
fn head(i: usize, out: &mut [u8], at: usize) -> usize
    ensures { Wrote (head_text i) at out.old out.new result }
{
    let mut end = bytes(out, at, b"\n\nsection ");
    end = part(i, out, end);
    bytes(out, end, b"(a, b) =")
}

// The sections, of which there are so many.
fn sections(source: &Source, count: usize, out: &mut [u8], at: usize) -> usize
    requires { Lent source.now count }
    ensures { SectionsPut source.now count count at out.old out.new result }
{
    let scope = Scope {
        count: 2,
        first: First::A,
        indent: 2,
    };
    let mut end = report::place(out, at);
    for i in 0..count {
        end = head(i, out, end);
        end = source.body(sheet::section_root(source.sheet, i), scope, out, end);
    }
    end
}

// The text of a sheet at the front of the output: its length.
fn write(sheet: &[u8], t: Table, out: &mut [u8]) -> usize
    requires { Fine sheet.now t }
    ensures { Prints sheet.now t out.old out.new result }
{
    let plain = plain_nodes(sheet, t);
    let table = t.starts;
    let source = Source {
        sheet,
        table,
        plain,
    };
    let scope = Scope {
        count: t.k,
        first: First::A,
        indent: 2,
    };
    let mut end = plan(t.k, out, 0);
    end = bytes(out, end, b"\nlist =");
    end = source.body(t.root, scope, out, end);
    end = sections(&source, t.sections, out, end);
    byte(out, end, b'\n')
}

/// A sheet as text, at the front of the output. Refused, and nothing is written: 1 an output under 16,384 bytes; the sheet's own refusals
/// (10 to 14); 81, `Twice`, the lowest node that is used twice as a child or a root.
pub fn print(sheet: &[u8], out: &mut [u8]) -> Numbered
    ensures value { told result ≡ reply_of (print_answer sheet.now (length out.old)) }
    ensures out_after { out.new ≡ output_of (print_answer sheet.now (length out.old)) out.old }
{
    if out.len() < OUTPUT {
        return Err(Fault::Refused(Refusal::OutputSmall));
    }
    let mut anew = [0u8; numbering::OUTPUT];
    numbering::number(sheet, &mut anew)?;
    let t = sheet::read_sheet(sheet)?;
    Ok(write(sheet, t, out))
}
