// The player as C calls it.
#![tactic(auto)]

ghost use Rattle.std.specs.Prelude.{◌≡◌};
ghost use Rattle.player.specs.Faults.{layer_name};
ghost use Rattle.kobrinza.specs.Reports.{layer_code, Reported};

use player::fault::Layer;
use player::play::play;

/// What a play came to, in plain numbers, since C has no `Option` and no enum that holds a value. The console's header lists them.
#[repr(C)]
#[derive(Clone, Copy, Drop)]
pub struct Report {
    /// How many bytes of the listing were written.
    pub len: usize,
    /// Where the fault's command begins on the tape, counted from 0.
    pub place: usize,
    /// The fault's number, or 0 for none.
    pub fault: u32,
    /// The fault's layer: 1 tape, 2 map, 3 rule, 4 search, 5 listing, or 0 for none.
    pub layer: u32,
}

/// The code of a layer: a plain number, as C takes it.
fn code_of(layer: Layer) -> u32
    ensures { result ≡ layer_code (layer_name layer) }
{
    match layer {
        Layer::Tape(_) => 1,
        Layer::Map(_) => 2,
        Layer::Rule(_) => 3,
        Layer::Search(_) => 4,
        Layer::Listing(_) => 5,
    }
}

/// Plays a tape into a listing buffer, and reports the length written and the fault.
///
/// In C a slice is a pointer, which is not null, and a length.
#[unsafe(no_mangle)]
pub extern "C" fn kobrinza_play(tape: &[u8], listing: &mut [u8]) -> Report
    ensures { Reported tape.now listing.old result listing.new }
{
    let played = play(tape, listing);
    let len = played.len;
    match played.fault {
        Some(fault) => Report {
            len,
            place: fault.place,
            fault: u32::from(u8::from(fault.layer)),
            layer: code_of(fault.layer),
        },
        None => Report {
            len,
            place: 0,
            fault: 0,
            layer: 0,
        },
    }
}
