// Reading a call off its seven numbers: its number is matched over 1 to 17 and the range beyond; its fields are then
// matched by kind (module fields).
#![tactic(auto)]

ghost use Rattle.std.specs.Prelude.{◌≡◌, is_some};
ghost use Rattle.rules.specs.Call.{kind_of, form, is_call, decoded};
ghost use Rattle.decode.specs.Entries.{entry_of};

mod fields;

use fields::is_in_form;
use rules::{AuthorityNo, Call, Field, Form, GateNo, Kind, PaperNo, Refusal, Seven, TrainNo};
use stamps::is_stamp;

// An entry of the table of calls, for seven numbers: the kinds of the four fields, and the call with its fields named.
#[derive(Clone, Copy)]
struct Entry {
    form: Form,
    call: Call,
}

// The kinds of a call's four fields, in order.
const fn form(a: Field, b: Field, c: Field, d: Field) -> Form
    ensures { result ≡ form a b c d }
{
    Form { a, b, c, d }
}

// The kind with that number; one that no authority has, which no REQUEST in its ranges names, stands for a TWA.
#[tactic(auto, using(crate::proofs::KindLaws::kind_or_twa))]
fn kind_of(n: u16) -> Kind
    ensures { result ≡ kind_of n }
{
    Kind::try_from(n).unwrap_or(Kind::Twa)
}

// The entry of the call's number; none for 0 and for the range beyond, which no call has.
// Kept: a match on the number, as document 01 names the form.
#[tactic(auto, unfolding(rules::specs::Call::named, rules::specs::Call::entry_of, rules::specs::Call::calls, rules::specs::Call::is_call))]
fn entry_of(s: Seven) -> Option<Entry>
    ensures entry { result ≡ entry_of s }
    ensures listed { is_some result ≡ is_call s.call }
{
    match s.call {
        1 => Some(Entry {
            form: form(Field::Kind, Field::First, Field::Last, Field::Officer),
            call: Call::Request {
                kind: kind_of(s.a),
                first: s.b,
                last: s.c,
                officer: s.d,
            },
        }),
        2 => Some(Entry {
            form: form(
                Field::Authority,
                Field::Officer,
                Field::Unused,
                Field::Unused,
            ),
            call: Call::Withdraw {
                authority: AuthorityNo(s.a),
                officer: s.b,
            },
        }),
        3 => Some(Entry {
            form: form(
                Field::Authority,
                Field::Authority,
                Field::Officer,
                Field::Unused,
            ),
            call: Call::Agree {
                toa: AuthorityNo(s.a),
                twa: AuthorityNo(s.b),
                officer: s.c,
            },
        }),
        4 => Some(Entry {
            form: form(Field::Gate, Field::Unused, Field::Unused, Field::Unused),
            call: Call::Block { gate: GateNo(s.a) },
        }),
        5 => Some(Entry {
            form: form(Field::Gate, Field::Unused, Field::Unused, Field::Unused),
            call: Call::Unblock { gate: GateNo(s.a) },
        }),
        6 => Some(Entry {
            form: form(
                Field::Authority,
                Field::Officer,
                Field::Unused,
                Field::Unused,
            ),
            call: Call::Grant {
                authority: AuthorityNo(s.a),
                officer: s.b,
            },
        }),
        7 => Some(Entry {
            form: form(
                Field::Authority,
                Field::Officer,
                Field::Unused,
                Field::Unused,
            ),
            call: Call::Clear {
                authority: AuthorityNo(s.a),
                officer: s.b,
            },
        }),
        8 => Some(Entry {
            form: form(
                Field::Authority,
                Field::Officer,
                Field::Unused,
                Field::Unused,
            ),
            call: Call::Reoccupy {
                authority: AuthorityNo(s.a),
                officer: s.b,
            },
        }),
        9 => Some(Entry {
            form: form(
                Field::Authority,
                Field::Officer,
                Field::Officer,
                Field::Unused,
            ),
            call: Call::HandOver {
                authority: AuthorityNo(s.a),
                out: s.b,
                into: s.c,
            },
        }),
        10 => Some(Entry {
            form: form(
                Field::Authority,
                Field::Officer,
                Field::Assurances,
                Field::Unused,
            ),
            call: Call::Fulfil {
                authority: AuthorityNo(s.a),
                officer: s.b,
                assurances: s.c,
            },
        }),
        11 => Some(Entry {
            form: form(
                Field::Authority,
                Field::Authority,
                Field::Officer,
                Field::Officer,
            ),
            call: Call::Continue {
                old: AuthorityNo(s.a),
                new: AuthorityNo(s.b),
                officer_old: s.c,
                officer_new: s.d,
            },
        }),
        12 => Some(Entry {
            form: form(
                Field::Train,
                Field::Gate,
                Field::AuthorityOrNone,
                Field::OfficerOrNone,
            ),
            call: Call::Move {
                train: TrainNo(s.a),
                gate: GateNo(s.b),
                authority: AuthorityNo(s.c),
                officer: s.d,
            },
        }),
        13 => Some(Entry {
            form: form(Field::Train, Field::Unused, Field::Unused, Field::Unused),
            call: Call::Passed {
                train: TrainNo(s.a),
            },
        }),
        14 => Some(Entry {
            form: form(Field::Authority, Field::Day, Field::Time, Field::Minutes),
            call: Call::Term {
                authority: AuthorityNo(s.a),
                day: s.b,
                time: s.c,
                minutes: s.d,
            },
        }),
        15 => Some(Entry {
            form: form(
                Field::Authority,
                Field::Authority,
                Field::Officer,
                Field::Distance,
            ),
            call: Call::Join {
                twa: AuthorityNo(s.a),
                toa: AuthorityNo(s.b),
                officer: s.c,
                distance: s.d,
            },
        }),
        16 => Some(Entry {
            form: form(Field::Gate, Field::Paper, Field::Unused, Field::Unused),
            call: Call::BookOut {
                gate: GateNo(s.a),
                paper: PaperNo(s.b),
            },
        }),
        17 => Some(Entry {
            form: form(Field::Gate, Field::Paper, Field::Certified, Field::NewPaper),
            call: Call::BookIn {
                gate: GateNo(s.a),
                paper: PaperNo(s.b),
                certified: s.c == 1,
                new: PaperNo(s.d),
            },
        }),
        0 | 18..=65535 => None,
    }
}

// The call that the seven numbers are, on a board of that many portions and gates: refused with 2 where no call has the
// number, with 3 where the stamp or a field is out of its range.
#[tactic(auto, unfolding(rules::specs::Call::decoded, rules::specs::Call::in_ranges))]
pub fn decode(portions: u16, gates: usize, s: Seven) -> Result<Call, Refusal>
    ensures { result ≡ decoded portions gates s }
{
    let Some(entry) = entry_of(s) else {
        return Err(Refusal::NoSuchCall);
    };
    if !is_stamp(s.day, s.time) {
        return Err(Refusal::Field);
    }
    if !is_in_form(portions, gates, entry.form, s) {
        return Err(Refusal::Field);
    }
    Ok(entry.call)
}
