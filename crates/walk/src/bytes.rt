//! Bytes moved within the arena.
ghost use Rattle.std.specs.Prelude.{◌+◌, ◌/◌, ◌%◌, ◌≤◌, ◌<◌, ◌≡◌, [], ◌∷◌, length, drop};
ghost use Rattle.std.proofs.Math.Seq.{paste};
ghost use Rattle.walk.specs.Arena.Parts.{Copied, CopiedIn};
ghost use Rattle.walk.specs.Arena.Cells.{rebuilt_in};

/// A number as a value: its kind and its two bytes.
pub fn number(n: u16) -> [u8; 3]
    ensures { result ≡ 4 ∷ n / 256 ∷ n % 256 ∷ [] }
{
    let [high, low] = n.to_be_bytes();
    [4, high, low]
}

/// Copies n bytes of the arena from one place to another; the two may overlap.
pub fn copy(arena: &mut [u8], from: usize, to: usize, n: usize)
    requires { (from + n ≤ length arena.old) × (to + n ≤ length arena.old) }
    ensures { Copied from to n arena.old arena.new }
{
    if from == to {
        return;
    }
    arena.copy_within(from..from + n, to);
}

/// Copies bytes to the front of the arena.
pub fn copy_in(from: &[u8], arena: &mut [u8])
    requires { length from.now ≤ length arena.old }
    ensures { CopiedIn from.now arena.old arena.new }
{
    // by a loop: of `copy_from_slice` the compiler makes a call of `memmove` here, which the archive would have to ask its host for
    for i in 0..from.len() {
        arena[i] = from[i];
    }
}

/// A part of the arena is copied into `whole`.
pub fn fill(whole: &mut [u8; 256], at: usize, arena: &[u8], start: usize, len: usize)
    requires { (length whole.old ≡ 256) × (at + len ≤ 256) × (start + len ≤ length arena.now) }
    ensures { (whole.new ≡ paste whole.old at (drop start arena.now) len) ×
        (length whole.new ≡ length whole.old) }
{
    whole[at..at + len].copy_from_slice(&arena[start..start + len]);
}

/// A kind byte and two values of the arena behind it, at the front of `whole`.
pub fn rebuild(
    whole: &mut [u8; 256],
    arena: &[u8],
    kind: u8,
    first: usize,
    flen: usize,
    second: usize,
    slen: usize,
)
    requires { (length whole.old ≡ 256) × (1 + flen + slen ≤ 256) × (first + flen ≤ length arena.now) × (second + slen ≤ length arena.now) }
    ensures { (whole.new ≡ rebuilt_in whole.old arena.now kind first flen second slen) ×
        (length whole.new ≡ 256) }
{
    whole[0] = kind;
    fill(whole, 1, arena, first, flen);
    fill(whole, 1 + flen, arena, second, slen);
}
