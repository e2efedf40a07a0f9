//! Words and names: what a word spells, whether it is a name, and which of the names in scope it is. A name is kept by the place where it begins; the
//! end of the text stands for `sent`.
ghost use Rattle.std.specs.Prelude.{◌≡◌, ◌+◌, ◌≤◌, ◌<◌, length, drop};
ghost use Rattle.tokens.specs.Laid.{shuts};
ghost use Rattle.tokens.specs.Tokens.{word_of, same};
ghost use Rattle.syntax.specs.Reader.{is_name, find};
ghost use Rattle.lexing.specs.Lexing.{token_at, Shape};
ghost use Rattle.lexing.specs.declared.Kind.TheVariants.{Word};
ghost use Rattle.parsing.specs.Names.{name_at, stack_of, found};

use lexing::{Kind, Lexeme, Tail, goes_on};

/// The bytes of a word; none where a token is no word.
#[tactic(auto, using(crate::specs::Names::word_is, crate::specs::Names::word_none))]
pub fn word(text: &[u8], t: Lexeme) -> &[u8]
    requires { Shape text.now t }
    ensures { result.now ≡ word_of (token_at text.now t) }
{
    match t.kind {
        Kind::Word => &text[t.at..t.end],
        _ => &text[..0],
    }
}

/// Whether a token is this word.
#[tactic(auto, using(crate::specs::Names::same_bytes))]
pub fn is_word(text: &[u8], t: Lexeme, w: &[u8]) -> bool
    requires { Shape text.now t }
    ensures { result ≡ same (word_of (token_at text.now t)) w.now }
{
    word(text, t) == w
}

/// Whether a word is a name: any but `_` and the words of the language.
#[tactic(auto, using(crate::specs::Names::long_names), unfolding(syntax::specs::Reader::is_name, syntax::specs::Reader::find, tokens::specs::Tokens::same))]
pub fn is_free(word: &[u8]) -> bool
    ensures { result ≡ is_name word.now }
{
    match word {
        b"" | b"_" => false,
        b"plan" | b"list" | b"section" | b"case" | b"of" | b"with" | b"default" => false,
        b"end" | b"let" | b"in" | b"each" | b"true" | b"false" => false,
        _ => true,
    }
}

/// Whether a token is a name.
pub fn is_name(text: &[u8], t: Lexeme) -> bool
    requires { Shape text.now t }
    ensures { result ≡ is_name (word_of (token_at text.now t)) }
{
    is_free(word(text, t))
}

// Whether no word goes on at a place.
#[tactic(auto, using(crate::specs::Names::shut_end, crate::specs::Names::shut_at))]
fn ends_word(text: &[u8], at: usize) -> bool
    ensures { result ≡ shuts (drop at text.now) }
{
    text.len() <= at || !goes_on(text[at], Tail::Letters)
}

/// Whether the name at a place is the word of a token. It is inlined into `lookup`, so that most names are told apart with no call.
#[inline(always)]
#[tactic(auto, using(crate::specs::Names::name_sent_same))]
pub fn is_same(text: &[u8], place: usize, t: Lexeme) -> bool
    requires { Shape text.now t × (t.kind ≡ Word) }
    ensures { result ≡ same (name_at text.now place) (word_of (token_at text.now t)) }
{
    if text.len() <= place {
        return is_word(text, t, b"sent");
    }
    // most names differ in the first byte
    if text[place] != text[t.at] {
        return false;
    }
    let word = &text[t.at..t.end];
    text[place..].starts_with(word) && ends_word(text, place + word.len())
}

/// The number of a name among `many`, of which the first stands at `base`; the last of those that are the same.
#[tactic(auto, using(crate::specs::Names::above_all, crate::specs::Names::above_one, crate::specs::Names::above_found, crate::specs::Names::above_none))]
pub fn lookup(text: &[u8], names: &[usize], base: usize, many: usize, t: Lexeme) -> Option<usize>
    requires { Shape text.now t × (t.kind ≡ Word) × (base + many ≤ length names.now) }
    ensures { result ≡ found (find (stack_of text.now names.now base many) (word_of (token_at text.now t))) }
{
    for i in (0..many).rev() {
        if is_same(text, names[base + i], t) {
            return Some(i);
        }
    }
    None
}
