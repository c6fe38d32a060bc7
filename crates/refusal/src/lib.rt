// The refusals of document 01's table, "What is turned back", and of document 02, items 2 and 6.
#![tactic(auto)]

ghost use Rattle.std.specs.Prelude.{◌≡◌};

// Retired: "Number 13 no longer occurs" (document 02, item 1). It is no case of `Refusal`, and its name stays so that the number is never
// given to another cause.
pub const EARLY: u32 = 13;

// A refusal, by its number in the table.
#[derive(Clone, Copy, Debug, PartialEq, Eq)]
pub enum Refusal {
    Size = 1,
    Seat = 2,
    Round = 3,
    Record = 4,
    Keys = 5,
    Store = 6,
    Out = 7,
    Said = 8,
    Garbled = 9,
    OtherRound = 10,
    Stranger = 11,
    Disorder = 12,
    Signature = 14,
    NoConflict = 15,
    KeyMaterial = 16,

    // Of reading a note; it comes before 4.
    Note = 17,

    // Of the dispatcher; both come after 4.
    Lane = 18,
    Full = 19,
}

impl Refusal {
    ghost use Rattle.refusal.specs.Answers.{number_of};

    // The number of a refusal, as C gets it.
    pub fn number(self) -> u32
        ensures { result ≡ number_of self }
    {
        self as u32
    }
}

pub mod answers;
