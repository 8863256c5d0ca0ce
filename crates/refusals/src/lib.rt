// Why a call is refused: a row of the one table of refusals, by its name, and the number that stands for it outside.
#![tactic(auto)]

ghost use Rattle.std.specs.Prelude.{◌≡◌};
ghost use Rattle.refusals.specs.Rows.{row};

// The rows, in the table's order.
#[derive(Clone, Copy, PartialEq, Eq, Debug)]
pub enum Refusal {
    // the move graph
    OverLimits = 1,
    ListLength = 2,
    AreaTooShort = 3,
    FaultyStarts = 4,
    FaultyDependency = 5,
    FaultyHost = 6,
    SetOutOfRange = 7,
    EqualSets = 8,
    AreaInconsistent = 9,
    NoSuchAtom = 10,
    IllegalSet = 11,
    SetUnchanged = 12,
    // the merge graph
    MergeOverLimits = 14,
    MergeLists = 15,
    MergeIndex = 16,
    SetNamedTwice = 17,
    NoRoomForChunk = 18,
    NoRoomForEntry = 19,
    SourceIsTarget = 20,
    MergeAreaInconsistent = 21,
    // the program
    BadCommand = 22,
    // the choice of a merge target, fixed atoms, entry classes, the start order, merged chunks
    ChoiceLists = 23,
    AtomFixed = 24,
    FaultyClasses = 25,
    NoStart = 26,
    OrderTooShort = 27,
    MergedAway = 28,
}

impl Refusal {
    // The row's number.
    // stays: the cases have C's numbers, so the conversion is one cast; a `From` for u32 would hold the same cast with the same promise: no plainer.
    pub fn row(self) -> u32
        ensures { result ≡ row self }
    {
        self as u32
    }
}
