// The refusals by document 01's words, each with its number; 21 and 22 are 02's order 1, 23 its order 2, 24 its order
// 4, 25 its order 6, 26 and 27 its order 9.
ghost use Rattle.std.specs.Prelude.{◌≡◌};
ghost use Rattle.rules.specs.Answer.{refusal_no};

#[derive(Clone, Copy, Debug, PartialEq, Eq)]
pub enum Refusal {
    ShortLine = 1,
    NoSuchCall = 2,
    Field = 3,
    Clock = 4,
    NotLive = 5,
    Stage = 6,
    Officer = 7,
    AlreadySo = 8,
    Full = 9,
    NoFacility = 10,
    Unprotected = 11,
    Occupied = 12,
    Overlap = 13,
    Site = 14,
    Assurance = 15,
    StillNeeded = 16,
    NoTrain = 17,
    Blocked = 18,
    NotPiloted = 19,
    Plan = 20,
    Notice = 21,
    Term = 22,
    // The buffer is shorter than 33 lines of 73 bytes.
    ShortPage = 23,
    // The distance is under 500 or over 1000 metres.
    Distance = 24,
    // BOOK IN would restore a gate whose block is on.
    BlockOn = 25,
    // The kind, the officer's statement or the list of worksites is not as it has to be.
    Worksites = 26,
    // Two worksites of a TWA are more than 3500 metres apart.
    TooFarApart = 27,
}

impl From<Refusal> for u16 {
    ghost from_gives = { λ refusal number. number ≡ refusal_no refusal };

    fn from(refusal: Refusal) -> u16 {
        refusal as u16
    }
}
