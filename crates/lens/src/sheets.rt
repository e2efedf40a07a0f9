//! Sheets made of sheets, for C.
ghost use Rattle.std.specs.Prelude.{length};
ghost use Rattle.preorder.specs.NumberAnswer.{number_answer};
ghost use Rattle.join.specs.JoinAnswer.{join_answer};
ghost use Rattle.lens.specs.Tools.{NumberPacked, MadePacked};

use telling::{pack_made, pack_numbered};

/// `numbering::number` for C: the sheet in the one numbering at the front of `out`.
#[unsafe(no_mangle)]
pub extern "C" fn lens_number(sheet: &[u8], out: &mut [u8]) -> u64
    ensures { NumberPacked (number_answer sheet.now (length out.old)) result out.old out.new }
{
    pack_numbered(numbering::number(sheet, out))
}

/// `join::join` for C: the joined sheet at the front of `out`.
#[unsafe(no_mangle)]
pub extern "C" fn lens_join(first: &[u8], second: &[u8], out: &mut [u8]) -> u64
    ensures { MadePacked (join_answer first.now second.now (length out.old)) result out.old out.new }
{
    pack_made(join::join(first, second, out))
}
