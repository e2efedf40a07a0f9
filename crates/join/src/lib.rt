//! Two sheets joined into one, whose list is the pair of both lists (document 02, request 7).
#![tactic(auto)]

ghost use Rattle.std.specs.Prelude.{◌≡◌, length};
ghost use Rattle.joined.specs.JoinedCalls.{joined_bytes};
ghost use Rattle.made.specs.Made.{Makes};
ghost use Rattle.join.specs.JoinAnswer.{join_answer, text_of};
ghost use Rattle.join.specs.JoinWritten.{anew_of, Joinable};
ghost use Rattle.report.specs.Writing.{Wrote};

use made::Made;
use records::Anew;
use refusal::Refusal;
use sheet::Table;

/// The bytes of output that joining takes.
pub const OUTPUT: usize = 2_048;

// All of a sheet's nodes in their order, its nodes' numbers raised and those of its sections.
fn raised(count: usize, by: u8, shift: u8) -> Anew
    ensures { result ≡ anew_of count by shift }
{
    let order = records::shifted(0);
    let nodes = records::shifted(by);
    let sections = records::shifted(shift);
    Anew {
        count,
        order,
        nodes,
        sections,
    }
}

// The joined sheet of two that fit, at the front of the output: its length.
fn write(first: &[u8], a: Table, second: &[u8], b: Table, out: &mut [u8]) -> usize
    requires { Joinable first.now a second.now b }
    ensures { Wrote (text_of (joined_bytes first.now second.now)) 0 out.old out.new result }
{
    let behind = 1 + a.nodes;
    let m = raised(a.nodes, 1, 0);
    let n = raised(b.nodes, behind as u8, a.sections as u8);
    let mut end = report::bytes(out, 0, &[0x01u8, a.k as u8, 0x00]);
    end = records::write_sections(first, a.sections, m, out, end);
    end = records::write_sections(second, b.sections, n, out, end);
    end = report::bytes(
        out,
        end,
        &[0x16u8, (1 + a.root) as u8, (behind + b.root) as u8],
    );
    end = records::write_nodes(first, a, m, out, end);
    records::write_nodes(second, b, n, out, end)
}

/// Two sheets joined: node 0 is a pair of the two roots, the first sheet's nodes follow, then the second's; the sections likewise. Refused,
/// and nothing is written: 1 an output under 2,048 bytes; the first sheet's own refusals (10 to 14); the second's; 83 the sheets have
/// not as many variables; 84 over 200 nodes or 8 sections.
pub fn join(first: &[u8], second: &[u8], out: &mut [u8]) -> Made
    ensures { Makes (join_answer first.now second.now (length out.old)) result out.old out.new }
{
    if out.len() < OUTPUT {
        return Err(Refusal::OutputSmall);
    }
    let a = sheet::read_sheet(first)?;
    let b = sheet::read_sheet(second)?;
    if a.k != b.k {
        return Err(Refusal::SheetsDiffer);
    }
    if 200 < 1 + a.nodes + b.nodes {
        return Err(Refusal::JoinFull);
    }
    if 8 < a.sections + b.sections {
        return Err(Refusal::JoinFull);
    }
    Ok(write(first, a, second, b, out))
}
