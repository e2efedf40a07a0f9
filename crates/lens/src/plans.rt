//! A new plan that a house made, judged, for C.
ghost use Rattle.std.specs.Prelude.{length};
ghost use Rattle.venue.specs.Accepts.{accepts_of};
ghost use Rattle.lens.specs.Tools.{VerdictPacked};

use telling::pack_verdict;

/// `accepts::accepts` for C.
#[unsafe(no_mangle)]
pub extern "C" fn lens_check_plan(
    sheet: &[u8],
    old: &[u8],
    view: &[u8],
    new: &[u8],
    allowance: u32,
    scratch: &mut [u8],
) -> u64
    ensures { VerdictPacked (accepts_of sheet.now old.now view.now new.now allowance
        (length scratch.old)) result scratch.old scratch.new }
{
    pack_verdict(accepts::accepts(sheet, old, view, new, allowance, scratch))
}
