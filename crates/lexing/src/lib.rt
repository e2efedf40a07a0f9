//! The tokens of a text: the one ahead of a place, its kind, where it begins and where it ends.
#![tactic(auto)]

ghost use Rattle.std.specs.Prelude.{◌≡◌, ◌≤◌, ◌<◌, length, get_or};
ghost use Rattle.std.specs.Bool.{Decides};
ghost use Rattle.tokens.specs.Tokens.{is_blank, is_letter, is_digit, dash, class_of};
ghost use Rattle.lexing.specs.Lexing.{class_named, in_run, Running, Comment, Gap, Skips, Mark, Lexed, Next};

/// The kind of a token: a word, digits, `#` and digits, an arrow, a mark of one byte; or the end of the text, where no token is ahead.
#[derive(Clone, Copy, Debug, PartialEq, Eq)]
pub enum Kind {
    Word,
    Digits,
    Hash,
    Arrow,
    End,
    Mark(u8),
}

/// A token: its kind, and the places where it begins and ends.
#[derive(Clone, Copy, Debug, PartialEq, Eq)]
pub struct Lexeme {
    pub kind: Kind,
    pub at: usize,
    pub end: usize,
}

impl Lexeme {
    /// Whether a token is of this kind.
    pub fn is(self, kind: Kind) -> bool
        ensures { Decides result (self.kind ≡ kind) }
    {
        self.kind == kind
    }
}

/// The class of a byte: white space, a letter or the low line, a digit, `-`, `#`, any other.
#[derive(Clone, Copy, Debug, PartialEq, Eq)]
pub enum Class {
    Blank,
    Letter,
    Digit,
    Dash,
    Sharp,
    Other,
}

/// What goes on behind a first byte: letters and digits, or digits alone.
#[derive(Clone, Copy, Debug, PartialEq, Eq)]
pub enum Tail {
    Letters,
    Digits,
}

// Whether a byte is white space.
fn is_blank(c: u8) -> bool
    ensures { result ≡ is_blank c }
{
    matches!(c, b' ' | b'\t' | b'\n' | b'\r')
}

// Whether a byte is a letter, or the low line.
fn is_letter(c: u8) -> bool
    ensures { result ≡ is_letter c }
{
    matches!(c, b'a'..=b'z' | b'A'..=b'Z' | b'_')
}

// Whether a byte is a digit.
fn is_digit(c: u8) -> bool
    ensures { result ≡ is_digit c }
{
    matches!(c, b'0'..=b'9')
}

impl Class {
    /// The class of a byte.
    #[tactic(auto, using(crate::specs::Lexing::class_laws))]
    pub fn of(c: u8) -> Class
        ensures { result ≡ class_named (class_of c) }
    {
        match c {
            _ if is_blank(c) => Class::Blank,
            _ if is_letter(c) => Class::Letter,
            _ if is_digit(c) => Class::Digit,
            b'-' => Class::Dash,
            b'#' => Class::Sharp,
            _ => Class::Other,
        }
    }
}

/// Whether a byte goes on such a run.
#[tactic(auto, using(crate::specs::Lexing::named_laws), unfolding(crate::specs::Lexing::in_run, crate::specs::Lexing::class_named))]
pub fn goes_on(c: u8, run: Tail) -> bool
    ensures { result ≡ in_run run (class_of c) }
{
    match Class::of(c) {
        Class::Letter => run == Tail::Letters,
        Class::Digit => true,
        _ => false,
    }
}

// The place behind the run of such bytes that goes on at a place.
#[tactic(auto, using(crate::specs::Lexing::run_more))]
fn run_end(text: &[u8], from: usize, run: Tail) -> usize
    requires { from ≤ length text.now }
    ensures { Running (in_run run) text.now from result }
{
    for at in from..text.len() {
        if !goes_on(text[at], run) {
            return at;
        }
    }
    text.len()
}

// The place behind a comment that goes on at a place: behind its line.
#[tactic(auto, using(crate::specs::Lexing::comment_more, crate::specs::Lexing::comment_line, crate::specs::Lexing::comment_last))]
fn comment_end(text: &[u8], from: usize) -> usize
    requires { from ≤ length text.now }
    ensures { Comment text.now from result }
{
    for at in from..text.len() {
        if text[at] == b'\n' {
            return at + 1;
        }
    }
    text.len()
}

// The place behind the blank or the comment that stands at a place; the place itself where neither does.
#[tactic(auto, using(crate::specs::Lexing::gap_laws), unfolding(crate::specs::Lexing::class_named))]
fn gap_end(text: &[u8], at: usize) -> usize
    requires { at < length text.now }
    ensures { Gap text.now at result }
{
    match Class::of(text[at]) {
        Class::Blank => at + 1,
        Class::Dash => dash_end(text, at),
        _ => at,
    }
}

// The place behind the comment that a dash at a place begins; the place itself where it begins none.
#[tactic(auto, using(crate::specs::Lexing::gap_none, crate::specs::Lexing::one_dash))]
fn dash_end(text: &[u8], at: usize) -> usize
    requires { (at < length text.now) × (class_of (get_or text.now at 0) ≡ dash) }
    ensures { Gap text.now at result }
{
    if text.len() - at < 2 {
        return at;
    }
    if text[at + 1] != b'-' {
        return at;
    }
    comment_end(text, at + 2)
}

// The place behind white space and comments.
fn skip(text: &[u8], from: usize) -> usize
    ensures { Skips text.now from result }
{
    let mut at = from;
    // a `while`, since each place comes from what was read before it
    while at < text.len() {
        let end = gap_end(text, at);
        if end == at {
            return at;
        }
        at = end;
    }
    at
}

/// The token ahead of a place.
pub fn next(text: &[u8], from: usize) -> Lexeme
    ensures { Next text.now from result }
{
    let at = skip(text, from);
    if text.len() <= at {
        return Lexeme {
            kind: Kind::End,
            at: text.len(),
            end: text.len(),
        };
    }
    match Class::of(text[at]) {
        Class::Letter => Lexeme {
            kind: Kind::Word,
            at,
            end: run_end(text, at + 1, Tail::Letters),
        },
        Class::Digit => Lexeme {
            kind: Kind::Digits,
            at,
            end: run_end(text, at + 1, Tail::Digits),
        },
        Class::Sharp => Lexeme {
            kind: Kind::Hash,
            at,
            end: run_end(text, at + 1, Tail::Digits),
        },
        _ => mark(text, at),
    }
}

// The mark that stands at a place: an arrow, or one byte.
fn mark(text: &[u8], at: usize) -> Lexeme
    requires { Mark text.now at }
    ensures { Lexed text.now at result }
{
    let one = Lexeme {
        kind: Kind::Mark(text[at]),
        at,
        end: at + 1,
    };
    if text[at] != b'-' {
        return one;
    }
    if text.len() - at < 2 {
        return one;
    }
    if text[at + 1] != b'>' {
        return one;
    }
    Lexeme {
        kind: Kind::Arrow,
        at,
        end: at + 2,
    }
}
