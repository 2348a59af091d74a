// The numbers of 01 and 02, and of the exported functions, in one table: why a call is turned back, or where a run stops. 0 is an answer with no refusal.
#![tactic(auto)]

ghost use Rattle.std.specs.Prelude.{◌≡◌};
ghost use Rattle.refusal.specs.Refusal.{number_of, answer_by};

// Up to 41 they are document 01's and 02's; 100 to 102 are the exported functions' own.
#[derive(Clone, Copy, PartialEq, Eq)]
pub enum Refusal {
    // The course sheet: its header and lengths, a surface, a patch.
    SheetHeader = 1,
    SheetSurface = 2,
    SheetPatch = 3,
    // A shot: the tunables, the ball, the air, the landing.
    Physics = 4,
    Ball = 5,
    AirDensity = 6,
    Landing = 7,
    // A list whose length is not that of whole records.
    ListLength = 8,
    // A pin, an entry's spot, and a spot whose height is asked, out of range.
    Pin = 9,
    EntrySpot = 10,
    HeightSpot = 11,
    // An input of a length that none has.
    InputLength = 12,
    // A run that stops: no room for a contact or a point, a state or a spot out of range, a step that the limit does not allow.
    ContactsFull = 20,
    PointsFull = 21,
    OutOfRange = 22,
    StepLimit = 23,
    // The board: the bay has no entry left, the shot is there already, no entry at that place.
    BayUsed = 24,
    ShotEntered = 25,
    NoEntry = 26,
    // A page with no room for the card.
    PageLength = 30,
    // A bay that there is not.
    Bay = 31,
    // The shelf: a name that is none, no free place, a name under which nothing is kept.
    Name = 32,
    ShelfFull = 33,
    NotKept = 34,
    // A target or a grid out of range.
    Aim = 35,
    // Listening: the times, the tolerance, the room for marks.
    Times = 39,
    Tolerance = 40,
    MarksLength = 41,
    // The exported functions: a lent length, a list that is no board or shelf, a number of no termination.
    LentLength = 100,
    NotHeld = 101,
    NoTermination = 102,
}

impl From<Refusal> for u32 {
    ghost from_gives = { λ r n. n ≡ number_of r };

    fn from(refusal: Refusal) -> u32 {
        refusal as u32
    }
}

// What an exported function answers: 0, or the refusal's number.
pub fn answer<T>(outcome: &Result<T, Refusal>) -> u32
    ensures { result ≡ answer_by outcome.now }
{
    match outcome {
        Ok(_) => 0,
        Err(refusal) => u32::from(*refusal),
    }
}
