ghost use Rattle.std.specs.Prelude.{◌≡◌};
ghost use Rattle.walks.specs.Settings.{flat_rule, said};

use track::run::{POINTS, WINCHES};

/// The setting that bars a joint. Any other is the joint's penalty.
pub const BARRED: u16 = 65_535;

/// What a setting says: the penalty of a joint, or `None` where it bars it.
///
/// The rules keep settings as the numbers that calls, tapes and sheets give, and that the contracts of `set` name:
/// an Option there would be made at each `set` in place of once here, and take twice the memory.
fn penalty_of(setting: u16) -> Option<u16>
    ensures { result ≡ said setting }
{
    (setting != BARRED).then_some(setting)
}

/// What a rule answers at a joint whose setting is `setting`.
pub(crate) fn answer(setting: u16, point: u8, arriving: u8, leaving: u8) -> Option<u16>
    ensures { result ≡ flat_rule setting point arriving leaving }
{
    if usize::from(point) >= POINTS || arriving >= WINCHES || leaving >= WINCHES {
        None
    } else if arriving == leaving {
        Some(0)
    } else {
        penalty_of(setting)
    }
}
