// The types that the rules and the code share, and the refusals by name. Documents 01 and 02 stand in specs/ as
// definitions, the theorems in proofs/.
#![tactic(auto)]

ghost use Rattle.std.specs.Prelude.{◌≡◌};
ghost use Rattle.rules.specs.Answer.{answer_no, number_no};

mod kind;
mod refusal;

use arrayvec::ArrayVec;
pub use kind::Kind;
pub use refusal::Refusal;

// The four kinds of number that are never taken for one another: those of authorities, of trains, of gates, and of the
// papers that book a gate out of use.
// Kept: four structs of one field, as document 01 names the form.
#[derive(Clone, Copy, Debug, Default, PartialEq, Eq, PartialOrd, Ord)]
pub struct AuthorityNo(pub u16);

#[derive(Clone, Copy, Debug, Default, PartialEq, Eq, PartialOrd, Ord)]
pub struct TrainNo(pub u16);

#[derive(Clone, Copy, Debug, Default, PartialEq, Eq, PartialOrd, Ord)]
pub struct GateNo(pub u16);

#[derive(Clone, Copy, Debug, Default, PartialEq, Eq, PartialOrd, Ord)]
pub struct PaperNo(pub u16);

// A call as it is handed in: seven numbers of 16 bits.
#[derive(Clone, Copy, Debug, PartialEq, Eq)]
pub struct Seven {
    pub day: u16,
    pub time: u16,
    pub call: u16,
    pub a: u16,
    pub b: u16,
    pub c: u16,
    pub d: u16,
}

// The kinds of field of a call; each has a range of its own.
#[derive(Clone, Copy, Debug, PartialEq, Eq)]
pub enum Field {
    Unused,
    Kind,
    First,
    Last,
    Officer,
    Authority,
    Train,
    Gate,
    Assurances,
    AuthorityOrNone,
    OfficerOrNone,
    Day,
    Time,
    Minutes,
    Distance,
    Paper,
    Certified,
    NewPaper,
}

// The kinds of a call's four fields.
#[derive(Clone, Copy, Debug, PartialEq, Eq)]
pub struct Form {
    pub a: Field,
    pub b: Field,
    pub c: Field,
    pub d: Field,
}

// A call with its fields named.
// Kept: MOVE's 0 for no authority and no officer, and BOOK IN's certified with its new paper beside it, are the fields
// as the papers call them, and the definitions speak of each: an Option would be made of them only to be taken apart
// there.
#[derive(Clone, Copy, Debug, PartialEq, Eq)]
pub enum Call {
    Request {
        kind: Kind,
        first: u16,
        last: u16,
        officer: u16,
    },
    Withdraw {
        authority: AuthorityNo,
        officer: u16,
    },
    Agree {
        toa: AuthorityNo,
        twa: AuthorityNo,
        officer: u16,
    },
    Block {
        gate: GateNo,
    },
    Unblock {
        gate: GateNo,
    },
    Grant {
        authority: AuthorityNo,
        officer: u16,
    },
    Clear {
        authority: AuthorityNo,
        officer: u16,
    },
    Reoccupy {
        authority: AuthorityNo,
        officer: u16,
    },
    HandOver {
        authority: AuthorityNo,
        out: u16,
        into: u16,
    },
    Fulfil {
        authority: AuthorityNo,
        officer: u16,
        assurances: u16,
    },
    Continue {
        old: AuthorityNo,
        new: AuthorityNo,
        officer_old: u16,
        officer_new: u16,
    },
    Move {
        train: TrainNo,
        gate: GateNo,
        authority: AuthorityNo,
        officer: u16,
    },
    Passed {
        train: TrainNo,
    },
    Term {
        authority: AuthorityNo,
        day: u16,
        time: u16,
        minutes: u16,
    },
    Join {
        twa: AuthorityNo,
        toa: AuthorityNo,
        officer: u16,
        distance: u16,
    },
    BookOut {
        gate: GateNo,
        paper: PaperNo,
    },
    BookIn {
        gate: GateNo,
        paper: PaperNo,
        certified: bool,
        new: PaperNo,
    },
}

// A gate: traffic goes from one portion to another; 99 is outside the board.
// Kept: the kind is a number: `call` takes a register that holds any, and an enum would ask more of it.
// Kept: 99 here and in a train, and 0 below for no authority, paper or term: an enum or an Option would give each of
// them a second spelling, as `Some(0)` beside `None`, and the definitions, which compare with the papers' numbers, two
// cases.
#[derive(Clone, Copy, Debug, Default, PartialEq, Eq)]
pub struct Gate {
    pub from: u16,
    pub to: u16,
    pub kind: u16,
}

// A gate's booking: the paper that it is booked out of use under, 0 where it isn't out, and the paper that this one
// replaced, or 0.
#[derive(Clone, Copy, Debug, Default, PartialEq, Eq)]
pub struct Booking {
    pub paper: PaperNo,
    pub replaced: PaperNo,
}

// A live authority. The limits are a set of portions (crate sets); agreed is the authority whose officer's
// agreement it rests on, a TWA's TOA by AGREE and a TOA's TWA by JOIN, or 0; start is the minute in which its term
// starts and minutes its length, both 0 where it has none.
#[derive(Clone, Copy, Debug, Default, PartialEq, Eq)]
pub struct Authority {
    pub number: AuthorityNo,
    pub kind: Kind,
    pub limits: u64,
    pub officer: u16,
    pub in_force: bool,
    pub workers_on: bool,
    pub agreed: AuthorityNo,
    pub start: u32,
    pub minutes: u16,
}

// A train on the board: its head and rear portion, and the authority it is with, or 0. The head may be outside, 99.
#[derive(Clone, Copy, Debug, Default, PartialEq, Eq)]
pub struct Train {
    pub number: TrainNo,
    pub head: u16,
    pub rear: u16,
    pub with: AuthorityNo,
}

// The board's whole state: the gates of the plan by number, and the booking of each; the live authorities and the
// trains on the board, by ascending number. blocks is a set of gates; last is the last number allotted; day and time
// are the stamp of the last accepted call. exclusive_held and twa_held are the portions that LPAs and TOAs in force
// and TWAs in force have in their limits, needed the gates that an authority in force needs (02, order 8).
// Kept: gates and bookings are two lists: the plan's gates never change, and the reckoning reads them alone; in one
// list each clause on gates would be of a list that is mapped.
#[derive(Clone, Drop)]
pub struct Register {
    pub portions: u16,
    pub gates: ArrayVec<Gate, 64>,
    pub bookings: ArrayVec<Booking, 64>,
    pub day: u16,
    pub time: u16,
    pub last: AuthorityNo,
    pub blocks: u64,
    pub authorities: ArrayVec<Authority, 32>,
    pub trains: ArrayVec<Train, 32>,
    pub exclusive_held: u64,
    pub twa_held: u64,
    pub needed: u64,
}

impl Register {
    // The same register once more. A copy takes no memory, so it can't fail.
    pub fn copied(&self) -> Register
        ensures { result ≡ self.now }
    {
        self.clone().unwrap()
    }
}

// What a call answers: the number allotted by an accepted REQUEST, none for any other accepted call, or the refusal.
pub type Answer = Result<Option<AuthorityNo>, Refusal>;

// What opening returns: the register, the closed board's where the plan is refused.
// Kept: beside `Called`: document 01 has a result of opening and one of a call, and each has a contract of its own.
#[derive(Clone, Drop)]
pub struct Opened {
    pub register: Register,
    pub answer: Result<(), Refusal>,
}

// What a call returns: the register, as it was where the call is refused.
#[derive(Clone, Drop)]
pub struct Called {
    pub register: Register,
    pub answer: Answer,
}

// The answer as document 01 numbers it: 0, or the refusal's number.
pub fn answer_number<T: Copy>(answer: Result<T, Refusal>) -> u16
    ensures { result ≡ answer_no answer }
{
    match answer {
        Ok(_) => 0,
        Err(refusal) => u16::from(refusal),
    }
}

// The number allotted, or 0.
pub fn allotted_number(answer: Answer) -> u16
    ensures { result ≡ number_no answer }
{
    match answer {
        Ok(Some(number)) => number.0,
        Ok(None) | Err(_) => 0,
    }
}
