//! The cells of the plan's variables: cell i for variable i.
ghost use Rattle.std.specs.Prelude.{◌≤◌};
ghost use Rattle.walk.specs.Call.Gather.{Counted};

/// The cells of k variables.
pub fn first_cells(k: usize) -> [u8; rules::VARIABLES]
    requires { k ≤ 16 }
    ensures { Counted k result }
{
    let mut of = [0u8; rules::VARIABLES];
    for i in 0..k {
        of[i] = i as u8;
    }
    of
}
