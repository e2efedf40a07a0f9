//! Values as JSON and back, for C.
ghost use Rattle.std.specs.Prelude.{length};
ghost use Rattle.notation.specs.Calls.{to_json, from_json};
ghost use Rattle.lens.specs.Tools.{MadePacked};

use telling::pack_made;

/// `json_codec::write` for C: the text at the front of `out`.
#[unsafe(no_mangle)]
pub extern "C" fn lens_to_json(value: &[u8], out: &mut [u8]) -> u64
    ensures { MadePacked (to_json value.now (length out.old)) result out.old out.new }
{
    pack_made(json_codec::write(value, out))
}

/// `json_codec::read` for C: the value at the front of `out`.
#[unsafe(no_mangle)]
pub extern "C" fn lens_from_json(text: &[u8], out: &mut [u8]) -> u64
    ensures { MadePacked (from_json text.now (length out.old)) result out.old out.new }
{
    pack_made(json_codec::read(text, out))
}
