//! The nodes of a sheet as they are met: node n has eight bytes from 8 n on, its record at their front.
ghost use Rattle.std.specs.Prelude.{◌≡◌, ◌+◌, ◌*◌, ◌≤◌, length};
ghost use Rattle.std.proofs.lemmas.List.Edits.{sets};

/// The record of node n.
#[tactic(auto, using(crate::specs::Nodes::copied))]
pub fn store(slots: &mut [u8], n: usize, row: [u8; 8])
    requires { (length row ≡ 8) × (8 * n + 8 ≤ length slots.old) }
    ensures { slots.new ≡ sets slots.old (8 * n) row }
{
    slots[8 * n..8 * n + 8].copy_from_slice(&row);
}
