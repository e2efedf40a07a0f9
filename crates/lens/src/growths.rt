//! How often a variable's length counts in the list's, for C.
ghost use Rattle.growth.specs.Growth.{growth_of};
ghost use Rattle.lens.specs.Tools.{GrowthPacked};

use packing::pack_told;

/// `growth::growth` for C.
#[unsafe(no_mangle)]
pub extern "C" fn lens_growth(sheet: &[u8], variable: usize) -> u64
    ensures { GrowthPacked (growth_of sheet.now variable) result }
{
    match growth::growth(sheet, variable) {
        Ok(n) => pack_told(0, n),
        Err(refusal) => pack_told(refusal.number(), 0),
    }
}
