// The player for C: the static library that exports what `kobrinza` has.
#![tactic(auto)]

ghost use Rattle.kobrinza.specs.Reports.{Reported};

use kobrinza::Report;

/// Plays a tape into a listing buffer, and reports the length written and the fault.
///
/// In C a slice is a pointer, which is not null, and a length.
#[unsafe(no_mangle)]
pub extern "C" fn kobrinza_play(tape: &[u8], listing: &mut [u8]) -> Report
    ensures { Reported tape.now listing.old result listing.new }
{
    kobrinza::kobrinza_play(tape, listing)
}
