/// How a place of a work table or of a board is reached.
#[derive(Clone, Copy, Drop, PartialEq, Eq, Debug)]
pub struct Reached<C> {
    /// The least cost of the walks that the place speaks of.
    pub cost: C,
    /// In a table the run before, or none for a first run; on a board the last run, or none at the home.
    // By number: a table is memory that a caller lends, so its places cannot refer to one another.
    pub run: Option<u16>,
}

/// One place of a work table or of a board: none where there is no such walk.
///
/// Place r of a table speaks of the legal walks that end with run r, and place v of a board of those that end at point v.
pub type Place<C> = Option<Reached<C>>;
