//! Types read from their bytes, each into its slot, and compared there.
//!
//! A slot for each type that a sheet may ask for: 0 to 15 the plan's variables, 16 to 39 the sections, three each, 40 the view, and from 41 on
//! the nodes. A type's bytes are those from its slot's start up to the next slot's start; a slot that is not lent has none.
ghost use Rattle.std.specs.Prelude.{false, cond, ◌∷◌, ◌++◌, ◌≡◌, ◌==◌, ◌+◌, ◌≤◌, ◌<◌, get_or, IsSomeAnd};
ghost use Rattle.types.specs.Slots.{kind_named, byte_of, owed_behind, type_len, part_at, lent_below, TypesRead};
ghost use Rattle.typing.specs.Types.{Ty};
ghost use Rattle.typing.specs.Fits.{added};
ghost use Rattle.typing.specs.Written.{bytes_of, Short};
ghost use Rattle.rules.specs.Semantics.{two};
ghost use Rattle.shapes.specs.Parts.{same_bytes};

// The most bytes of one type.
const LONGEST: usize = 256;

// The slots: of the sections' types, the view's and the nodes', and the one behind the last.
pub const SECTIONS: usize = 16;

pub const VIEW: usize = 40;

pub const NODES: usize = 41;

pub const PAST: usize = 241;

/// The kinds of types.
#[derive(Clone, Copy, Debug, PartialEq, Eq)]
pub enum Kind {
    Truths,
    Numbers,
    Lists,
    Pairs,
}

impl Kind {
    // The byte that types of the kind begin with.
    fn byte(self) -> u8
        ensures { result ≡ byte_of self }
    {
        match self {
            Kind::Truths => 0x30,
            Kind::Numbers => 0x31,
            Kind::Lists => 0x32,
            Kind::Pairs => 0x33,
        }
    }
}

// The kind of the types that begin with the byte.
fn kind_of(byte: u8) -> Option<Kind>
    ensures { result ≡ kind_named byte }
{
    match byte {
        0x30 => Some(Kind::Truths),
        0x31 => Some(Kind::Numbers),
        0x32 => Some(Kind::Lists),
        0x33 => Some(Kind::Pairs),
        _ => None,
    }
}

// How many types are owed behind a byte of the kind, of so many in front of it: a list owes a type in place of its own, a pair two.
fn owed_behind(kind: Kind, owed: usize) -> usize
    requires { (1 ≤ owed) × (owed ≤ 256) }
    ensures { result ≡ owed_behind kind owed }
{
    match kind {
        Kind::Truths | Kind::Numbers => owed - 1,
        Kind::Lists => owed,
        Kind::Pairs => owed + 1,
    }
}

// The length of the type that the bytes begin with, where they begin with one of at most 256 bytes.
fn type_len(s: &[u8]) -> Option<usize>
    ensures { result ≡ type_len s.now }
{
    let mut owed = 1;
    for (at, &byte) in s[..s.len().min(LONGEST)].iter().enumerate() {
        owed = owed_behind(kind_of(byte)?, owed);
        if owed == 0 {
            return Some(at + 1);
        }
    }
    None
}

// Whether a type is lent for the slot.
fn is_lent(slot: usize, k: usize, sections: usize, nodes: usize) -> bool
    requires { (k ≤ 16) × (sections ≤ 8) }
    ensures { lent_below k sections nodes (slot + 1) ≡ cond result 1 0 + lent_below k sections nodes slot }
{
    if slot < SECTIONS {
        return slot < k;
    }
    if slot < VIEW {
        return slot - SECTIONS < 3 * sections;
    }
    slot - VIEW <= nodes
}

// Where the types of all slots start, and behind them where the last one ends, if the bytes are those types one after another and nothing behind them.
pub fn read_types(types: &[u8], k: usize, sections: usize, nodes: usize) -> Option<[u16; 242]>
    requires { (k ≤ 16) × (sections ≤ 8) }
    ensures { TypesRead types.now (lent_below k sections nodes) result }
{
    let mut starts = [0u16; 242];
    let mut at = 0;
    for slot in 0..PAST {
        if is_lent(slot, k, sections, nodes) {
            at += type_len(&types[at..])?;
        }
        starts[slot + 1] = at as u16;
    }
    (at == types.len()).then_some(starts)
}

/// Types that are lent: their bytes, and where those of each slot start.
#[derive(Clone, Copy, Debug, PartialEq, Eq)]
pub struct Lent<'a> {
    pub types: &'a [u8],
    pub starts: &'a [u16; 242],
}

impl<'a> Lent<'a> {
    // The type in a slot.
    pub fn type_in(self, slot: usize) -> &'a [u8]
        ensures { result.now ≡ part_at self.entry.types.now self.entry.starts.now slot }
    {
        if PAST <= slot {
            return &self.types[..0];
        }
        let start = usize::from(self.starts[slot]);
        let end = usize::from(self.starts[slot + 1]);
        if end < start {
            return &self.types[..0];
        }
        if self.types.len() < end {
            return &self.types[..0];
        }
        &self.types[start..end]
    }

    // Whether the type in a slot is of the kind.
    pub fn is_of(self, slot: usize, kind: Kind) -> bool
        ensures { result ≡ (get_or (part_at self.entry.types.now self.entry.starts.now slot) 0 0 == byte_of kind) }
    {
        match self.type_in(slot) {
            [first, ..] => *first == kind.byte(),
            [] => false,
        }
    }

    // Whether the types in two slots are the same.
    pub fn is_same(self, a: usize, b: usize) -> bool
        ensures { result ≡ same_bytes (part_at self.entry.types.now self.entry.starts.now a) (part_at self.entry.types.now self.entry.starts.now b) }
    {
        shapes::same(self.type_in(a), self.type_in(b))
    }

    // Whether the type in slot t is that of lists of the type in slot a.
    pub fn is_list_of(self, t: usize, a: usize) -> bool
        ensures { result ≡ same_bytes (part_at self.entry.types.now self.entry.starts.now t) (0x32 ∷ part_at self.entry.types.now self.entry.starts.now a) }
    {
        let [first, rest @ ..] = self.type_in(t) else {
            return false;
        };
        if *first != Kind::Lists.byte() {
            return false;
        }
        shapes::same(rest, self.type_in(a))
    }

    // Whether the type in slot t is that of pairs of the types in slots a and b.
    pub fn is_pair_of(self, t: usize, a: usize, b: usize) -> bool
        ensures { result ≡ same_bytes (part_at self.entry.types.now self.entry.starts.now t)
            (0x33 ∷ (part_at self.entry.types.now self.entry.starts.now a ++ part_at self.entry.types.now self.entry.starts.now b)) }
    {
        let pair = self.type_in(t);
        let first = self.type_in(a);
        if pair.len() <= first.len() {
            return false;
        }
        if pair[0] != Kind::Pairs.byte() {
            return false;
        }
        let middle = 1 + first.len();
        if !shapes::same(&pair[1..middle], first) {
            return false;
        }
        shapes::same(&pair[middle..], self.type_in(b))
    }
}

// The two variables that a case on this type adds: the first member and the rest of a list, the parts of a pair.
pub fn parts_of(t: &[u8]) -> Option<(&[u8], &[u8])>
    ensures { (u a b : Ty) → t.now ≡ bytes_of u → Short u → added u ≡ two a b
        → IsSomeAnd result (λ p. (p.0.now ≡ bytes_of a) × (p.1.now ≡ bytes_of b)) }
{
    let [first, inside @ ..] = t else {
        return None;
    };
    match kind_of(*first)? {
        Kind::Pairs => Some(inside.split_at(type_len(inside)?)),
        _ => Some((inside, t)),
    }
}
