//! Why a job of document 01's program is refused (letter Y).
ghost use Rattle.std.specs.Prelude.{◌≡◌, drop};
ghost use Rattle.report.specs.Writing.{Wrote};
ghost use Rattle.walking.specs.Endings.{scratch_after, whys};
ghost use Rattle.explaining.specs.Explain.{why_reply};
ghost use Rattle.walking.specs.Explanations.{told};

use explaining::Why;
use inputs::Job;

// The line of an explanation; of none, that the job is not refused.
fn told_line(why: Option<Why>, text: &mut [u8]) -> usize
    ensures { Wrote (told (why_reply why)) 0 text.old text.new result }
{
    match why {
        None => words::told_line(0, &[], 0, text),
        Some(w) => {
            let nodes = inputs::part_at(&w.chain, 0, usize::from(w.depth));
            words::told_line(w.refusal.number(), nodes, w.first, text)
        }
    }
}

/// The line of letter Y, and the call that it takes.
pub fn why_line(input: &[u8], scratch: &mut [u8; rules::SCRATCH], text: &mut [u8]) -> usize
    ensures wrote { Wrote (whys (drop 1 input.now)).line 0 text.old text.new result }
    ensures scratch_after { scratch.new ≡ scratch_after (whys (drop 1 input.now)).call scratch.old }
{
    let job = inputs::rest_from(input, 1);
    let Some(call) = inputs::parse(job) else {
        return report::refusal(text, 0, 60);
    };
    match call {
        Job::Get(f) => {
            let why = explaining::why_get(
                inputs::sheet_of(job, f),
                inputs::plan_of(job, f),
                f.allowance,
                scratch,
            );
            told_line(why, text)
        }
        Job::Put(f) => {
            let why = explaining::why_put(
                inputs::sheet_of(job, f),
                inputs::plan_of(job, f),
                inputs::view_of(job, f),
                f.allowance,
                scratch,
            );
            told_line(why, text)
        }
    }
}
