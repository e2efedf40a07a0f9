//! The caller's buffers: scratch cleared, and an answer copied out of it.
#![tactic(auto)]

ghost use Rattle.std.specs.Prelude.{◌≡◌, ◌+◌, min, leb, length};
ghost use Rattle.rules.specs.Numbers.{scratch_size};
ghost use Rattle.buffers.specs.Buffers.{zeros, copied};

/// The bytes of scratch that a call takes are zero; of a shorter one all.
#[tactic(auto, unfolding(crate::specs::Buffers::zeros))]
pub fn clear(scratch: &mut [u8])
    ensures { scratch.new ≡ zeros (min scratch_size (length scratch.old)) scratch.old }
{
    let n = scratch.len().min(rules::SCRATCH);
    scratch[..n].fill(0);
}

// Whether so many bytes have n from a place on.
fn has(length: usize, at: usize, n: usize) -> bool
    ensures { result ≡ leb (at + n) length }
{
    if length < at {
        return false;
    }
    if length - at < n {
        return false;
    }
    true
}

/// The bytes of scratch from `from` on, n of them, at place `to` of the output; none where either buffer is too short for them.
pub fn copy_out(scratch: &[u8], from: usize, n: usize, out: &mut [u8], to: usize)
    ensures { out.new ≡ copied from to n scratch.now out.old }
{
    if !has(scratch.len(), from, n) {
        return;
    }
    if !has(out.len(), to, n) {
        return;
    }
    // by a loop: of `copy_from_slice` the compiler makes a call of `memmove` here, which the archive would have to ask its host for
    for i in 0..n {
        out[to + i] = scratch[from + i];
    }
}
