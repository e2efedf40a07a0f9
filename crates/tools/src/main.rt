//! The program `tools` (docs/TOOLS.md): one job on standard input, the line of its answer on standard output. A longer input than the 8,193
//! bytes that are read has the same line (`line_front` in command/specs/LineLaws.antt).
#![tactic(auto)]

use std::io;
use std::io::Write;

fn main(rt: HostRuntime) -> io::Result<()> {
    let mut input = [0u8; inputs::INPUT + 1];
    let n = inputs::read_front(&mut rt.stdin(), &mut input)?;
    let mut out = [0u8; rules::PUT_OUTPUT];
    let mut scratch = [0u8; rules::SCRATCH];
    let mut text = [0u8; command::LINE];
    let end = command::line(&input[..n], &mut out, &mut scratch, &mut text);
    rt.stdout().write_all(&text[..end])
}
