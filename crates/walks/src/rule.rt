ghost use Rattle.std.specs.Prelude.{◌≡◌};
ghost use Rattle.walks.specs.Rules.{Rule, SoundRule};

/// A hand-over rule: what a joint costs, or that it is barred.
///
/// `table` is its meaning; `sound` says that it bars all but numbered points and winches, and that its penalties are at most 65,534.
pub trait HandoverRule {
    ghost table: { Self → Rule };

    /// The penalty of the joint at `point` from the winch `arriving` to the winch `leaving`, or `None` where it is barred.
    fn ask(&self, point: u8, arriving: u8, leaving: u8) -> Option<u16>
        ensures { result ≡ table self.now point arriving leaving };

    ghost sound: { (t : Self) → SoundRule (table t) };
}
