//! The check of a sheet beside lent types, for C.
ghost use Rattle.typing.specs.Check.{check};
ghost use Rattle.lens.specs.Tools.{CheckPacked};

use packing::pack_told;

/// `types::check` for C.
#[unsafe(no_mangle)]
pub extern "C" fn lens_check_types(sheet: &[u8], types: &[u8]) -> u64
    ensures { CheckPacked (check sheet.now types.now) result }
{
    match types::check(sheet, types) {
        Ok(()) => pack_told(0, 0),
        Err(misfit) => match misfit.node {
            None => pack_told(misfit.refusal.number(), 0),
            Some(node) => pack_told(misfit.refusal.number(), node as u16),
        },
    }
}
