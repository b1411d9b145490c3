ghost use Rattle.std.specs.Prelude.{◌≡◌};
ghost use Rattle.walks.specs.Kinds.{Kind, Lawful};

/// A kind of cost: a start, an order, a step along a run and a step over a joint.
///
/// `meaning` says what these are as functions, and `lawful` that they keep the laws that the search rests on.
pub trait CostKind {
    type Cost: Copy;

    ghost meaning: { Self → Kind Self.Cost };

    /// The cost of the empty walk.
    fn start(&self) -> Self::Cost
        ensures { result ≡ (meaning self.now).start };

    /// Whether `a` is not above `b`.
    fn at_most(&self, a: Self::Cost, b: Self::Cost) -> bool
        ensures { result ≡ (meaning self.now).at_most a b };

    /// The cost once a run is hauled along.
    fn along(&self, cost: Self::Cost, time: u16, strain: u8) -> Self::Cost
        ensures { result ≡ (meaning self.now).along cost time strain };

    /// The cost once a joint is passed.
    fn over(&self, cost: Self::Cost, penalty: u16, differ: bool) -> Self::Cost
        ensures { result ≡ (meaning self.now).over cost penalty differ };

    ghost lawful: { (k : Self) → Lawful (meaning k) };
}
