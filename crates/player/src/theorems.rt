ghost use Rattle.player.specs.Roundtrip.{TapesPlayBack};

/// The tape written from any rig, played into a new one, has no fault and gives an equal rig.
pub fn tapes_play_back()
    ensures { TapesPlayBack }
{}
