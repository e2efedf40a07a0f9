//! A new plan that a house sends with its list, judged (letter C).
ghost use Rattle.std.specs.Prelude.{◌≡◌};
ghost use Rattle.inputs.specs.Format.{fields_of};
ghost use Rattle.report.specs.Writing.{Wrote};
ghost use Rattle.value.specs.Numbered.{numbered};
ghost use Rattle.walking.specs.Endings.{scratch_after, checks, yes_line};

use refusal::Refusal;

// The line of a verdict: whether the new plan stands, or why there is none.
fn verdict_line(verdict: Result<bool, Refusal>, text: &mut [u8]) -> usize
    ensures { Wrote (yes_line (numbered verdict)) 0 text.old text.new result }
{
    match verdict {
        Ok(stands) => {
            if stands {
                return report::bytes(text, 0, b"ok yes\n");
            }
            report::bytes(text, 0, b"ok no\n")
        }
        Err(e) => report::refusal(text, 0, usize::from(e.number())),
    }
}

/// The line of letter C, and the call that it takes.
pub fn check_line(input: &[u8], scratch: &mut [u8; rules::SCRATCH], text: &mut [u8]) -> usize
    ensures wrote { Wrote (checks input.now (fields_of input.now)).line 0 text.old text.new result }
    ensures scratch_after { scratch.new ≡ scratch_after (checks input.now (fields_of input.now)).call scratch.old }
{
    let Some(f) = inputs::take_fields(input) else {
        return report::refusal(text, 0, 60);
    };
    let rest = inputs::view_of(input, f);
    let list = inputs::number_at(rest, 0);
    if rest.len() < 2 + list {
        return report::refusal(text, 0, 60);
    }
    let verdict = accepts::accepts(
        inputs::sheet_of(input, f),
        inputs::plan_of(input, f),
        inputs::part_at(rest, 2, list),
        inputs::rest_from(rest, 2 + list),
        f.allowance,
        scratch,
    );
    verdict_line(verdict, text)
}
