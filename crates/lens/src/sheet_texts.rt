//! Sheets as text, for C.
ghost use Rattle.std.specs.Prelude.{length};
ghost use Rattle.parsing.specs.Answer.{read_answer};
ghost use Rattle.printing.specs.Answer.{print_answer};
ghost use Rattle.lens.specs.Tools.{NumberPacked};
ghost use Rattle.lens.specs.Readings.{ReadPacked};

use telling::{hand_reading, pack_numbered};

/// `parsing::read` for C: the sheet at the front of `out`; of a fault in the text its detail in the answer, and in `place` how many bytes stand before
/// it, which else stays what it was.
#[unsafe(no_mangle)]
pub extern "C" fn lens_read_sheet(text: &[u8], out: &mut [u8], place: &mut usize) -> u64
    ensures { ReadPacked (read_answer text.now (length out.old)) result out.old out.new
        place.old place.new }
{
    hand_reading(parsing::read(text, out), place)
}

/// `printing::print` for C: the text at the front of `out`.
#[unsafe(no_mangle)]
pub extern "C" fn lens_print_sheet(sheet: &[u8], out: &mut [u8]) -> u64
    ensures { NumberPacked (print_answer sheet.now (length out.old)) result out.old out.new }
{
    pack_numbered(printing::print(sheet, out))
}
