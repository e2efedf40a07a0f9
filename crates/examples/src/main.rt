//! Runs the readers and the program's jobs on the lines of data/ and prints what each says.
//!
//! A line is a letter, a space and bytes in hexadecimal: `v` a value, `c` bytes that each test is asked of, `p` a plan behind the byte k,
//! `w` a view, `s` a sheet, `j` a job, `t` a job whose call is followed by the one that turns it back, `u` a put whose edit is taken back,
//! `k` a job of the program `tools`.
#![tactic(auto)]

mod lines;
mod sizes;
mod tests;
mod turns;

ghost use Rattle.std.specs.Prelude.{◌≤◌, length};

use refusal::Refusal;
use std::fs::File;
use std::io;
use std::io::Write;
use value::Fault;

// A word and a number.
fn labelled(text: &mut [u8], at: usize, label: &[u8], n: usize) -> usize
    ensures { result ≤ length text.new }
{
    let end = report::bytes(text, at, label);
    report::decimal(text, end, n)
}

// The line of a refusal.
fn refused(e: Refusal, text: &mut [u8]) -> usize
    ensures { result ≤ length text.new }
{
    report::refusal(text, 0, usize::from(e.number()))
}

fn value_line(bytes: &[u8], text: &mut [u8]) -> usize
    ensures { result ≤ length text.new }
{
    match value::read_value(bytes) {
        Ok(n) => {
            let end = labelled(text, 0, b"value of ", n);
            report::byte(text, end, b'\n')
        }
        Err(Fault::Malformed) => report::bytes(text, 0, b"malformed\n"),
        Err(Fault::TooLong) => report::bytes(text, 0, b"too long\n"),
    }
}

fn span(text: &mut [u8], at: usize, start: u16, len: u16) -> usize
    ensures { result ≤ length text.new }
{
    let end = labelled(text, at, b" ", usize::from(start));
    labelled(text, end, b"+", usize::from(len))
}

fn plan_line(first: u8, plan: &[u8], text: &mut [u8]) -> usize
    ensures { result ≤ length text.new }
{
    let k = usize::from(first);
    let spans = match value::read_plan(k, plan) {
        Ok(spans) => spans,
        Err(e) => return refused(e, text),
    };
    let mut end = report::bytes(text, 0, b"plan");
    for i in 0..k.min(16) {
        end = span(text, end, spans.starts[i], spans.lens[i]);
    }
    report::byte(text, end, b'\n')
}

fn view_line(view: &[u8], text: &mut [u8]) -> usize
    ensures { result ≤ length text.new }
{
    match value::read_view(view) {
        Ok(()) => report::bytes(text, 0, b"view\n"),
        Err(e) => refused(e, text),
    }
}

fn sheet_line(bytes: &[u8], text: &mut [u8]) -> usize
    ensures { result ≤ length text.new }
{
    let table = match sheet::read_sheet(bytes) {
        Ok(table) => table,
        Err(e) => return refused(e, text),
    };
    let mut end = labelled(text, 0, b"sheet k ", table.k);
    end = labelled(text, end, b" root ", table.root);
    end = labelled(text, end, b" sections ", table.sections);
    end = labelled(text, end, b" nodes ", table.nodes);
    end = labelled(text, end, b" last at ", last_start(table));
    report::byte(text, end, b'\n')
}

// Where the last node's record starts.
fn last_start(table: sheet::Table) -> usize {
    match table.nodes {
        n @ 1..=200 => usize::from(table.starts[n - 1]),
        _ => 0,
    }
}

fn job_line(bytes: &[u8], text: &mut [u8; job::LINE]) -> usize
    ensures { result ≤ length text.new }
{
    let mut out = [0u8; rules::PUT_OUTPUT];
    let mut scratch = [0u8; rules::SCRATCH];
    job::line(bytes, &mut out, &mut scratch, text)
}

// The line of a job of `tools`, as far as there is room.
fn tool_line(bytes: &[u8], text: &mut [u8]) -> usize
    ensures { result ≤ length text.new }
{
    let mut out = [0u8; rules::PUT_OUTPUT];
    let mut scratch = [0u8; rules::SCRATCH];
    let mut line = [0u8; command::LINE];
    let end = command::line(bytes, &mut out, &mut scratch, &mut line);
    report::bytes(text, 0, &line[..end])
}

// What a line of data/ makes: the line to print, at the front of the text, and its length.
fn answer(letter: u8, bytes: &[u8], text: &mut [u8; job::LINE]) -> usize
    ensures { result ≤ length text.new }
{
    match letter {
        b'v' => value_line(bytes, text),
        b'c' => tests::line(bytes, text),
        b'w' => view_line(bytes, text),
        b's' => sheet_line(bytes, text),
        b'j' => job_line(bytes, text),
        b't' => turns::line(bytes, text),
        b'u' => turns::undo_line(bytes, text),
        b'k' => tool_line(bytes, text),
        b'p' => {
            if bytes.is_empty() {
                return 0;
            }
            plan_line(bytes[0], &bytes[1..], text)
        }
        _ => report::bytes(text, 0, b"?\n"),
    }
}

// Runs the next line of the file, and answers whether there was one.
fn run_next<R: io::Read, W: Write>(file: &mut R, to: &mut W) -> io::Result<bool> {
    let mut line = [0u8; 16400];
    let n = lines::read_line(file, &mut line)?;
    if n < 2 {
        return Ok(false);
    }
    let mut bytes = [0u8; 8200];
    let m = lines::unhex(&line[2..n], &mut bytes);
    let mut text = [0u8; job::LINE];
    let end = answer(line[0], &bytes[..m], &mut text);
    to.write_all(&text[..end])?;
    Ok(true)
}

// A proved loop has to end: no file uses up the turns.
fn run_file<R: io::Read, W: Write>(file: &mut R, to: &mut W) -> io::Result<()> {
    for _ in 0..u64::MAX {
        if !run_next(file, to)? {
            break;
        }
    }
    Ok(())
}

// A file that cannot be opened is named on standard error, and passed over.
fn run_named(rt: &HostRuntime, name: &str) -> io::Result<()> {
    match File::open(rt, name) {
        Ok(mut file) => run_file(&mut file, &mut rt.stdout()),
        Err(error) => eprintln!(rt; "{name}: {error}"),
    }
}

fn main(rt: HostRuntime) -> io::Result<()> {
    sizes::run(&mut rt.stdout())?;
    run_named(&rt, "readers.txt")?;
    run_named(&rt, "tests.txt")?;
    run_named(&rt, "examples.txt")?;
    run_named(&rt, "sizes.txt")?;
    run_named(&rt, "jobs.txt")?;
    run_named(&rt, "turns.txt")?;
    run_named(&rt, "manual.txt")?;
    run_named(&rt, "tools.txt")
}
