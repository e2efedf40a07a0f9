//! Values as JSON text (RFC 8259), and back (document 02, request 11).
#![tactic(auto)]

ghost use Rattle.std.specs.Prelude.{◌≡◌, ℕ, ◌≤◌, ◌<◌, length, not, Ok};
ghost use Rattle.std.specs.List.{position};
ghost use Rattle.notation.specs.Grammar.{largest_number, white, token, exactly, name, word, numeral, digits, value, members, object};
ghost use Rattle.value.specs.Value.{encode, encodes};
ghost use Rattle.json_codec.specs.Writer.{Holds, HoldsScalar, HoldsList, HoldsTwo, Writes, WritesList, WritesTwo};
ghost use Rattle.report.specs.Writing.{Wrote};
ghost use Rattle.json_codec.specs.Reader.{Skips, Passes, Gives};
ghost use Rattle.json_codec.specs.Turns.{Scalar};
ghost use Rattle.notation.specs.Calls.{to_json, from_json};
ghost use Rattle.made.specs.Made.{Makes};

use made::Made;
use refusal::Refusal;
use report::{byte, bytes, decimal};
use value::read_view;

/// The bytes of output that a text takes, and that a value takes.
pub const TEXT: usize = 2_048;

pub const VALUE: usize = 256;

// How deep arrays and objects nest at most.
const LEVELS: usize = 48;

// How far a reader or a writer within a call came: the places behind what it read and behind what it wrote.
#[derive(Clone, Copy, Debug, PartialEq, Eq)]
struct Step {
    at: usize,
    put: usize,
}

// READING

// Whether a byte is the RFC's white space. Most bytes are above all four, which one comparison tells.
#[tactic(auto, unfolding(notation::specs::Grammar::white))]
fn is_white(c: u8) -> bool
    ensures { result ≡ white c }
{
    c <= b' ' && matches!(c, b' ' | b'\n' | b'\r' | b'\t')
}

// The place of the first byte that is no white space.
fn first_black(s: &[u8]) -> Option<usize>
    ensures { result ≡ position (λ c. not (white c)) s.now }
{
    s.iter().position(|c| !is_white(*c))
}

// The place behind the white space at `at`.
fn past_white(s: &[u8], at: usize) -> usize
    requires { at ≤ length s.now }
    ensures { Skips s.now at result }
{
    match first_black(&s[at..]) {
        Some(n) => at + n,
        None => s.len(),
    }
}

// The same. The first byte is judged without a call, since before most tokens stands no white space.
#[inline(always)]
fn skip(s: &[u8], at: usize) -> usize
    requires { at ≤ length s.now }
    ensures { Skips s.now at result }
{
    if s.len() <= at {
        return at;
    }
    if !is_white(s[at]) {
        return at;
    }
    past_white(s, at + 1)
}

// The place behind a byte that is no white space and may have white space before it. It and `label` are inlined into the reader of an object, so that
// no `Result` of theirs stands in memory (docs/PERFORMANCE.md).
#[inline(always)]
fn pass(s: &[u8], at: usize, c: u8) -> Result<usize, Refusal>
    requires { (at ≤ length s.now) × (0x20 < c) }
    ensures { Passes (token c) s.now at result }
{
    let i = skip(s, at);
    if s.len() <= i {
        return Err(Refusal::JsonMalformed);
    }
    if s[i] != c {
        return Err(Refusal::JsonMalformed);
    }
    Ok(i + 1)
}

// The place behind these bytes.
fn spell(s: &[u8], at: usize, bytes: &[u8]) -> Result<usize, Refusal>
    requires { at ≤ length s.now }
    ensures { Passes (word bytes.now) s.now at result }
{
    if s[at..].starts_with(bytes) {
        return Ok(at + bytes.len());
    }
    Err(Refusal::JsonMalformed)
}

// The place behind this byte.
fn exact(s: &[u8], at: usize, c: u8) -> Result<usize, Refusal>
    requires { at ≤ length s.now }
    ensures { Passes (exactly c) s.now at result }
{
    if s.len() <= at {
        return Err(Refusal::JsonMalformed);
    }
    if s[at] != c {
        return Err(Refusal::JsonMalformed);
    }
    Ok(at + 1)
}

// The place behind a member's name, of one letter, and its colon. The two bytes are told one by one, since `spell` is a call.
#[inline(always)]
fn label(s: &[u8], at: usize, letter: u8) -> Result<usize, Refusal>
    requires { at ≤ length s.now }
    ensures { Passes (name letter) s.now at result }
{
    let open = pass(s, at, b'"')?;
    let named = exact(s, open, letter)?;
    let close = exact(s, named, b'"')?;
    pass(s, close, b':')
}

// The bytes of a number: of kind 04 up to 65,535, of kind 06 above that. Those of a small number go one by one, since `bytes` calls the host's memcpy.
fn store(n: u64, out: &mut [u8], put: usize) -> usize
    requires { n ≤ largest_number }
    ensures { Wrote (encode (numeral n)) put out.old out.new result }
{
    if n < 65536 {
        let [high, low] = (n as u16).to_be_bytes();
        let kind = byte(out, put, 4);
        let first = byte(out, kind, high);
        return byte(out, first, low);
    }
    let end = byte(out, put, 6);
    bytes(out, end, &(n as u32).to_be_bytes())
}

// A number whose first digit is `first`, and whose others stand at `at`.
fn number(s: &[u8], at: usize, first: u64, out: &mut [u8], put: usize) -> Result<Step, Refusal>
    requires { (at ≤ length s.now) × (first ≤ 9) }
    ensures { Gives (digits first) encode s.now at put out.old out.new result }
{
    let mut n = first;
    for i in at..s.len() {
        let c = s[i];
        if !c.is_ascii_digit() {
            return Ok(Step {
                at: i,
                put: store(n, out, put),
            });
        }
        if n == 0 {
            return Err(Refusal::JsonMalformed);
        }
        n = 10 * n + u64::from(c - b'0');
        if 4294967295 < n {
            return Err(Refusal::JsonMalformed);
        }
    }
    Ok(Step {
        at: s.len(),
        put: store(n, out, put),
    })
}

// A value that is neither an array nor an object, whose first byte stands at `at`.
fn scalar(s: &[u8], at: usize, out: &mut [u8], put: usize) -> Result<Step, Refusal>
    requires { Scalar s.now at }
    ensures { (l : ℕ) → Gives (value l) encode s.now at put out.old out.new result }
{
    let c = s[at];
    match c {
        b'0'..=b'9' => number(s, at + 1, u64::from(c - b'0'), out, put),
        b'f' => {
            let end = spell(s, at + 1, b"alse")?;
            Ok(Step {
                at: end,
                put: byte(out, put, 0),
            })
        }
        b't' => {
            let end = spell(s, at + 1, b"rue")?;
            Ok(Step {
                at: end,
                put: byte(out, put, 1),
            })
        }
        _ => Err(Refusal::JsonMalformed),
    }
}

// A value, with white space before it, in which arrays and objects nest at most `levels` deep.
#[cycle(array_object_value)]
fn value(s: &[u8], at: usize, levels: usize, out: &mut [u8], put: usize) -> Result<Step, Refusal>
    requires { at ≤ length s.now }
    ensures { Gives (value levels) encode s.now at put out.old out.new result }
{
    let i = skip(s, at);
    if s.len() <= i {
        return Err(Refusal::JsonMalformed);
    }
    match s[i] {
        b'[' => {
            if levels == 0 {
                return Err(Refusal::JsonDepth);
            }
            array(s, i + 1, levels - 1, out, put)
        }
        b'{' => {
            if levels == 0 {
                return Err(Refusal::JsonDepth);
            }
            object(s, i + 1, levels - 1, out, put)
        }
        _ => scalar(s, i, out, put),
    }
}

// An array behind its `[`. Each member's bytes stand behind 03, and 02 stands behind the last.
#[cycle(array_object_value)]
fn array(s: &[u8], at: usize, levels: usize, out: &mut [u8], put: usize) -> Result<Step, Refusal>
    requires { at ≤ length s.now }
    ensures { Gives (members levels) encodes s.now at put out.old out.new result }
{
    let mut i = skip(s, at);
    if s.len() <= i {
        return Err(Refusal::JsonMalformed);
    }
    if s[i] == b']' {
        return Ok(Step {
            at: i + 1,
            put: byte(out, put, 2),
        });
    }
    let mut p = byte(out, put, 3);
    // No `for`: where the next member stands says what was read.
    loop {
        let member = value(s, i, levels, out, p)?;
        let j = skip(s, member.at);
        if s.len() <= j {
            return Err(Refusal::JsonMalformed);
        }
        let c = s[j];
        if c == b']' {
            return Ok(Step {
                at: j + 1,
                put: byte(out, member.put, 2),
            });
        }
        if c != b',' {
            return Err(Refusal::JsonMalformed);
        }
        i = j + 1;
        p = byte(out, member.put, 3);
    }
}

// An object behind its `{`: the bytes of its two members stand behind 05.
#[cycle(array_object_value)]
fn object(s: &[u8], at: usize, levels: usize, out: &mut [u8], put: usize) -> Result<Step, Refusal>
    requires { at ≤ length s.now }
    ensures { Gives (object levels) encode s.now at put out.old out.new result }
{
    let a = label(s, at, b'a')?;
    let p = byte(out, put, 5);
    let first = value(s, a, levels, out, p)?;
    let comma = pass(s, first.at, b',')?;
    let b = label(s, comma, b'b')?;
    let second = value(s, b, levels, out, first.put)?;
    let last = pass(s, second.at, b'}')?;
    Ok(Step {
        at: last,
        put: second.put,
    })
}

/// JSON text as the bytes of a value, at the front of the output. Refusals: 1 output under 256 bytes; 70 not such a text and 71 nested 49 deep, each
/// at the first byte that shows it; 72 over 256 bytes as a value.
pub fn read(text: &[u8], out: &mut [u8]) -> Made
    ensures { Makes (from_json text.now (length out.old)) result out.old out.new }
{
    if out.len() < VALUE {
        return Err(Refusal::OutputSmall);
    }
    let mut bytes = [0u8; 257];
    let end = value(text, 0, LEVELS, &mut bytes, 0)?;
    if skip(text, end.at) < text.len() {
        return Err(Refusal::JsonMalformed);
    }
    let n = end.put;
    if VALUE < n {
        return Err(Refusal::JsonLong);
    }
    out[..n].copy_from_slice(&bytes[..n]);
    Ok(n)
}

// WRITING

// A value that is neither a list nor a pair, whose bytes stand at `at`.
fn write_scalar(v: &[u8], at: usize, text: &mut [u8], put: usize) -> Step
    requires { HoldsScalar v.now at }
    ensures { (levels : ℕ) → Writes v.now at levels put text.old text.new (Ok result) }
{
    match v[at] {
        0 => Step {
            at: at + 1,
            put: bytes(text, put, b"false"),
        },
        1 => Step {
            at: at + 1,
            put: bytes(text, put, b"true"),
        },
        4 => {
            let n = u16::from_be_bytes([v[at + 1], v[at + 2]]);
            Step {
                at: at + 3,
                put: decimal(text, put, usize::from(n)),
            }
        }
        _ => {
            let n = u32::from_be_bytes([v[at + 1], v[at + 2], v[at + 3], v[at + 4]]);
            Step {
                at: at + 5,
                put: decimal(text, put, n as usize),
            }
        }
    }
}

// A value whose bytes stand at `at`. Arrays and objects nest at most `levels` deep.
#[cycle(write_array_write_object_write_value)]
fn write_value(
    v: &[u8],
    at: usize,
    levels: usize,
    text: &mut [u8],
    put: usize,
) -> Result<Step, Refusal>
    requires { Holds v.now at }
    ensures { Writes v.now at levels put text.old text.new result }
{
    match v[at] {
        2 | 3 => {
            if levels == 0 {
                return Err(Refusal::JsonDepth);
            }
            write_array(v, at, levels - 1, text, put)
        }
        5 => {
            if levels == 0 {
                return Err(Refusal::JsonDepth);
            }
            write_object(v, at + 1, levels - 1, text, put)
        }
        _ => Ok(write_scalar(v, at, text, put)),
    }
}

// A list whose bytes stand at `at`, as an array.
#[cycle(write_array_write_object_write_value)]
fn write_array(
    v: &[u8],
    at: usize,
    levels: usize,
    text: &mut [u8],
    put: usize,
) -> Result<Step, Refusal>
    requires { HoldsList v.now at }
    ensures { WritesList v.now at levels put text.old text.new result }
{
    let mut p = byte(text, put, b'[');
    let mut i = at;
    if v[i] == 2 {
        return Ok(Step {
            at: i + 1,
            put: byte(text, p, b']'),
        });
    }
    // No `for`: where the next member stands says the one before it.
    loop {
        let member = write_value(v, i + 1, levels, text, p)?;
        i = member.at;
        if v[i] == 2 {
            return Ok(Step {
                at: i + 1,
                put: byte(text, member.put, b']'),
            });
        }
        p = byte(text, member.put, b',');
    }
}

// A pair whose two values stand at `at`, as an object.
#[cycle(write_array_write_object_write_value)]
fn write_object(
    v: &[u8],
    at: usize,
    levels: usize,
    text: &mut [u8],
    put: usize,
) -> Result<Step, Refusal>
    requires { HoldsTwo v.now at }
    ensures { WritesTwo v.now at levels put text.old text.new result }
{
    let p = bytes(text, put, b"{\"a\":");
    let first = write_value(v, at, levels, text, p)?;
    let q = bytes(text, first.put, b",\"b\":");
    let second = write_value(v, first.at, levels, text, q)?;
    Ok(Step {
        at: second.at,
        put: byte(text, second.put, b'}'),
    })
}

/// The bytes of a value as JSON text, at the front of the output. Refusals: 1 output under 2,048 bytes; 30, 31 and 32 of the value, as a view has them;
/// 71 nested 49 deep.
pub fn write(v: &[u8], out: &mut [u8]) -> Made
    ensures { Makes (to_json v.now (length out.old)) result out.old out.new }
{
    if out.len() < TEXT {
        return Err(Refusal::OutputSmall);
    }
    read_view(v)?;
    let mut text = [0u8; TEXT];
    let end = write_value(v, 0, LEVELS, &mut text, 0)?;
    let n = end.put;
    out[..n].copy_from_slice(&text[..n]);
    Ok(n)
}
