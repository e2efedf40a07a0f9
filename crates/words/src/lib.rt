//! The words of answers: starts, bits, and the line of a refusal that is explained.
#![tactic(auto)]

ghost use Rattle.std.specs.Prelude.{◌≡◌, ℕ, [], ◌∷◌, map, ◌≤◌, min, length};
ghost use Rattle.starts.specs.Starts.{firsts};
ghost use Rattle.report.specs.Text.{decimal_of, words};
ghost use Rattle.report.specs.Writing.{Wrote};
ghost use Rattle.words.specs.Answers.{bits_word, no_line, node_line, by_number, met_words, told_line};

use inputs::kept;
use starts::Starts;

// A number that is written in decimal, whatever its width.
trait Decimal {
    ghost number: { Self → ℕ };

    fn number(&self) -> usize
        ensures { result ≡ number self.now };
}

impl Decimal for u8 {
    ghost number = { λ n. n };

    fn number(&self) -> usize {
        usize::from(*self)
    }
}

impl Decimal for u16 {
    ghost number = { λ n. n };

    fn number(&self) -> usize {
        usize::from(*self)
    }
}

// Numbers in decimal, each behind a space.
fn number_words<T: Decimal>(text: &mut [u8], at: usize, numbers: &[T]) -> usize
    ensures { Wrote (words (map (λ n. decimal_of (T.number n)) numbers.now)) at text.old text.new result }
{
    let mut end = report::place(text, at);
    for n in numbers {
        end = report::decimal_word(text, end, n.number());
    }
    end
}

/// Starts in decimal, each behind a space: as many as the count says, at most 16.
pub fn start_words(text: &mut [u8], at: usize, starts: Starts) -> usize
    ensures { Wrote (words (map decimal_of (firsts (min starts.count 16) starts.at))) at text.old text.new result }
{
    number_words(text, at, &starts.at[..kept(starts.count)])
}

/// 16 bits as four hexadecimal digits, behind a space.
pub fn bits_word(text: &mut [u8], at: usize, bits: u16) -> usize
    ensures { Wrote (words (bits_word bits ∷ [])) at text.old text.new result }
{
    report::hex_word(text, at, &bits.to_be_bytes())
}

// `by` and the node that wrote first, given as one more than its number; nothing for 0.
fn by_words(text: &mut [u8], at: usize, first: u16) -> usize
    ensures { Wrote (words (by_number first)) at text.old text.new result }
{
    if first == 0 {
        return report::place(text, at);
    }
    let end = report::bytes(text, at, b" by");
    report::decimal_word(text, end, usize::from(first - 1))
}

// The line of a refusal that was met at the last of these nodes.
fn met_line(refusal: u8, nodes: &[u8], first: u16, text: &mut [u8]) -> usize
    requires { 1 ≤ length nodes.now }
    ensures { Wrote (no_line (met_words refusal nodes.now (by_number first))) 0 text.old text.new result }
{
    let depth = nodes.len();
    let mut end = report::bytes(text, 0, b"no");
    end = report::decimal_word(text, end, usize::from(refusal));
    end = report::decimal_word(text, end, usize::from(nodes[depth - 1]));
    end = report::decimal_word(text, end, depth);
    end = number_words(text, end, nodes);
    end = by_words(text, end, first);
    report::byte(text, end, b'\n')
}

/// The line of a refusal that is explained: its number, 0 for a success; the nodes from the root down to the one where it was met, none for a refusal
/// from before the walk; and one more than the node that wrote first, or 0.
pub fn told_line(refusal: u8, nodes: &[u8], first: u16, text: &mut [u8]) -> usize
    ensures { Wrote (told_line refusal nodes.now first) 0 text.old text.new result }
{
    if refusal == 0 {
        return report::bytes(text, 0, b"ok\n");
    }
    if nodes.is_empty() {
        return report::refusal(text, 0, usize::from(refusal));
    }
    met_line(refusal, nodes, first, text)
}

/// The line of a refusal that names a node: its number, and the node.
pub fn node_line(text: &mut [u8], refusal: u8, node: usize) -> usize
    ensures { Wrote (node_line refusal node) 0 text.old text.new result }
{
    let mut end = report::bytes(text, 0, b"no");
    end = report::decimal_word(text, end, usize::from(refusal));
    end = report::decimal_word(text, end, node);
    report::byte(text, end, b'\n')
}
