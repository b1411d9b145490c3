ghost use Rattle.std.specs.Prelude.{◌≡◌};
ghost use Rattle.sheet.specs.Winches.{in_use, winches_used};

use track::run::{Run, WINCHES};

/// Whether some run that is not struck is hauled by this winch.
fn is_in_use(runs: &[Run], winch: u8) -> bool
    ensures { result ≡ in_use runs.now winch }
{
    runs.iter().any(|run| !run.struck && run.winch == winch)
}

/// How many winches the runs in use need.
pub fn winches_in_use(runs: &[Run]) -> usize
    ensures { result ≡ winches_used runs.now }
{
    (0..WINCHES).filter(|winch| is_in_use(runs, *winch)).count()
}
