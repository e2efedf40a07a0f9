//! One number of several.
ghost use Rattle.std.specs.Prelude.{◌≡◌};
ghost use Rattle.packing.specs.Numbers.{Packs, Tells, low, WhyPacked};

/// The answer of a call: the low 8 bits are the refusal, 0 for a success; the next 16 the length, the next 8 a count of starts, the upper 32 the
/// steps.
pub fn pack(refusal: u8, len: u16, count: u8, steps: u32) -> u64
    ensures { Packs refusal len count steps result }
{
    u64::from(refusal)
        + 256 * u64::from(len)
        + 16777216 * u64::from(count)
        + 4294967296 * u64::from(steps)
}

/// The answer of a tool: the refusal in the low 8 bits, 0 for a success; what is told beside it in the next 16.
pub fn pack_told(number: u8, told: u16) -> u64
    ensures { Tells number told result }
{
    u64::from(number) + 256 * u64::from(told)
}

/// The low 16 bits of a number, as what is told has room for.
pub fn low(n: usize) -> u16
    ensures { result ≡ low n }
{
    (n % 65536) as u16
}

/// Where a refusal was met: the refusal in the low 8 bits, the depth in the next 8, one more than the node that wrote first in the next 16.
pub fn pack_why(refusal: u8, depth: u8, first: u16) -> u64
    ensures { WhyPacked refusal depth first result }
{
    u64::from(refusal) + 256 * u64::from(depth) + 65536 * u64::from(first)
}
