use routing::refusal::SearchRefusal;
use std::alloc::AllocError;
use thiserror::Error;
use track::refusal::MapRefusal;
use walks::refusal::RuleRefusal;

/// What did not agree.
#[derive(Clone, Copy, Debug, Drop, Error)]
pub enum Fault {
    #[error("no memory")]
    NoMemory(#[from(alloc)] AllocError),
    #[error("a call on the map was refused ({number})", number = u8::from(*.0))]
    CallRefused(#[from] MapRefusal),
    #[error("a setting was refused ({number})", number = u8::from(*.0))]
    SettingRefused(#[from] RuleRefusal),
    #[error("a search was refused ({number})", number = u8::from(*.0))]
    SearchRefused(#[from] SearchRefusal),
    /// A run was laid under another number than the next.
    #[error("a run got another number")]
    RunNumber,
    /// The rig has other runs than were laid.
    #[error("the rig has other runs")]
    RigRuns,
    /// The repeated relaxation did not come to rest.
    #[error("the relaxation does not come to rest")]
    NoRest,
    /// There are more walks that repeat no run than can be.
    #[error("too many walks")]
    TooManyWalks,
    /// The enumeration found another least cost than the relaxation.
    #[error("the enumeration finds another least cost")]
    SecondOpinion,
    /// A place of the table is absent, or there, or at another cost.
    #[error("a place of the table")]
    TablePlace,
    /// A place of the board is absent, or there, or at another cost.
    #[error("a place of the board")]
    BoardPlace,
    /// The last run of a place on the board.
    #[error("a last run on the board")]
    LastRun,
    /// The runs before, followed back, give no list that begins.
    #[error("the runs before lead nowhere")]
    NoBeginning,
    /// A list of runs is no legal walk from the home to where it should end.
    #[error("no legal walk")]
    NoWalk,
    /// A walk repeats a run.
    #[error("a run twice")]
    Repeats,
    /// A walk has another cost than was told.
    #[error("a walk of another cost")]
    WalkCost,
    /// A cost that was told is not the least.
    #[error("not the least cost")]
    NotLeast,
    /// There is a way where none should be, or none where one should be.
    #[error("a way or no way")]
    Way,
    /// A count of runs that the list has no room for.
    #[error("more runs than the list has")]
    TooLong,
    /// Another route than the one worked out by hand.
    #[error("another route")]
    OtherWalk,
    /// Another refusal than the first that applies, or none.
    #[error("another answer")]
    OtherAnswer,
    /// A place was written that should be as it was.
    #[error("a buffer was touched")]
    Touched,
}
