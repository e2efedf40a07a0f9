//! The fields of an input: numbers and parts at a place, those of a get or a put, and starts.
ghost use Rattle.std.specs.Prelude.{◌≡◌, ◌<◌, min, get_or, drop};
ghost use Rattle.inputs.specs.Format.{two, part, fields_of, sheet_of, plan_of, view_of};
ghost use Rattle.inputs.specs.Starts.{starts_in};

use starts::Starts;

/// The fields behind the letter of a get or a put: the allowance, and the lengths of the sheet and of the plan.
#[derive(Clone, Copy, Debug, PartialEq, Eq)]
pub struct Fields {
    pub allowance: u32,
    pub sheet: usize,
    pub plan: usize,
}

/// The byte at a place; 0 behind the end.
pub fn byte_at(input: &[u8], i: usize) -> u8
    ensures { result ≡ get_or input.now i 0 }
{
    input.get(i).copied().unwrap_or(0)
}

/// The number of two bytes at a place, high byte first; a byte behind the end counts as 0.
pub fn number_at(input: &[u8], i: usize) -> usize
    ensures { (result ≡ two input.now i) × (result < 65536) }
{
    if i < input.len() {
        return usize::from(u16::from_be_bytes([input[i], byte_at(input, i + 1)]));
    }
    0
}

/// n bytes from a place on, as far as there are so many.
pub fn part_at(input: &[u8], i: usize, n: usize) -> &[u8]
    ensures { result.now ≡ part input.now i n }
{
    let rest = rest_from(input, i);
    &rest[..n.min(rest.len())]
}

/// The bytes from a place on.
pub fn rest_from(input: &[u8], i: usize) -> &[u8]
    ensures { result.now ≡ drop i input.now }
{
    &input[i.min(input.len())..]
}

/// The fields of a get or a put, whatever the letter is; none where a part is cut.
pub fn take_fields(input: &[u8]) -> Option<Fields>
    ensures { result ≡ fields_of input.now }
{
    let sheet = number_at(input, 4);
    if input.len() < 8 + sheet {
        return None;
    }
    let plan = number_at(input, 6 + sheet);
    if input.len() < 8 + sheet + plan {
        return None;
    }
    let allowance = u32::from_be_bytes([0, input[1], input[2], input[3]]);
    Some(Fields {
        allowance,
        sheet,
        plan,
    })
}

/// The sheet that these fields tell of.
pub fn sheet_of(input: &[u8], fields: Fields) -> &[u8]
    ensures { result.now ≡ sheet_of input.now fields }
{
    part_at(input, 6, fields.sheet)
}

/// The plan behind the sheet.
pub fn plan_of(input: &[u8], fields: Fields) -> &[u8]
    ensures { result.now ≡ plan_of input.now fields }
{
    part_at(rest_from(input, 8), fields.sheet, fields.plan)
}

/// The view behind the plan.
pub fn view_of(input: &[u8], fields: Fields) -> &[u8]
    ensures { result.now ≡ view_of input.now fields }
{
    rest_from(rest_from(rest_from(input, 8), fields.sheet), fields.plan)
}

/// How many of n starts there is room for.
pub fn kept(n: u8) -> usize
    ensures { result ≡ min n 16 }
{
    usize::from(n.min(16))
}

/// The starts behind a variable's number: their count at place 2, then numbers of two bytes, of which the first 16 are read.
pub fn starts_in(input: &[u8]) -> Starts
    ensures { result ≡ starts_in input.now }
{
    let count = byte_at(input, 2);
    let n = kept(count);
    let mut at = [0u16; 16];
    for i in 0..n {
        at[i] = number_at(input, 3 + 2 * i) as u16;
    }
    Starts { count, at }
}
