//! The check of a sheet against types that are lent beside it (document 02, request 6).
#![tactic(auto)]

ghost use Rattle.std.specs.Prelude.{◌≡◌};
ghost use Rattle.typing.specs.Check as Checks;
ghost use Rattle.types.specs.Checked.{about_none, verdict_of};

mod fits;
mod lent;
mod scopes;
mod uses;

use crate::fits::first_unfit;
use crate::lent::{Lent, read_types};
use crate::uses::first_used_twice;
use refusal::Refusal;

/// Why a sheet does not pass: the refusal; and of 81 and 82 the lowest node that it is about.
#[derive(Clone, Copy, Debug, PartialEq, Eq)]
pub struct Misfit {
    pub refusal: Refusal,
    pub node: Option<usize>,
}

impl From<Refusal> for Misfit {
    ghost from_gives = { λ r m. m ≡ about_none r };

    fn from(refusal: Refusal) -> Misfit {
        Misfit {
            refusal,
            node: None,
        }
    }
}

/// Check a sheet against the types that are lent beside it. Refusals: the sheet's own (10 to 14); 80 where the types are malformed, too long,
/// too few or too many; 81 with the lowest node that is used twice; 82 with the lowest node that is reached and does not have its lent type.
pub fn check(sheet: &[u8], types: &[u8]) -> Result<(), Misfit>
    ensures { verdict_of result ≡ Checks.check sheet.now types.now }
{
    let table = sheet::read_sheet(sheet)?;
    let Some(starts) = read_types(types, table.k, table.sections, table.nodes) else {
        return Err(Misfit::from(Refusal::TypesMalformed));
    };
    if let Some(node) = first_used_twice(sheet, table) {
        return Err(Misfit {
            refusal: Refusal::NodeTwice,
            node: Some(node),
        });
    }
    let lent = Lent {
        types,
        starts: &starts,
    };
    if let Some(node) = first_unfit(sheet, table, lent) {
        return Err(Misfit {
            refusal: Refusal::NodeType,
            node: Some(node),
        });
    }
    Ok(())
}
