// The ranges of a call's fields: each field is matched by its kind.
ghost use Rattle.std.specs.Prelude.{◌≡◌};
ghost use Rattle.rules.specs.Call.{is_new_paper, in_range, in_form};

use rules::{Field, Form, Seven};
use stamps::{is_day, is_time};

// The new paper of a BOOK IN: none where the gate is certified, else another than the call's paper.
fn is_new_paper(paper: u16, certified: u16, new: u16) -> bool
    ensures { result ≡ is_new_paper paper certified new }
{
    if certified == 1 {
        return new == 0;
    }
    (1 <= new) & (new <= 9999) & (new != paper)
}

// The value of a field of the call is in the range of its kind.
// Kept: portions and gates, and no struct of the two: they are two counts of a register, which `take` reads off it.
#[tactic(auto, unfolding(rules::specs::Call::in_range))]
fn is_in_range(portions: u16, gates: usize, field: Field, s: Seven, value: u16) -> bool
    ensures { result ≡ in_range portions gates field s value }
{
    match field {
        Field::Unused => value == 0,
        Field::Kind => (1 <= value) & (value <= 3),
        Field::First => value <= s.c,
        Field::Last => value < portions,
        Field::Officer => (1 <= value) & (value <= 999),
        Field::Authority => (1 <= value) & (value <= 9999),
        Field::Train => (1 <= value) & (value <= 9999),
        Field::Gate => usize::from(value) < gates,
        Field::Assurances => value <= 7,
        Field::AuthorityOrNone => value <= 9999,
        Field::OfficerOrNone => value <= 999,
        Field::Day => is_day(value),
        Field::Time => is_time(value),
        Field::Minutes => 1 <= value,
        Field::Distance => true,
        Field::Paper => (1 <= value) & (value <= 9999),
        Field::Certified => value <= 1,
        Field::NewPaper => is_new_paper(s.b, s.c, value),
    }
}

// Each of the four fields is in its range.
#[tactic(auto, unfolding(rules::specs::Call::in_form))]
pub fn is_in_form(portions: u16, gates: usize, f: Form, s: Seven) -> bool
    ensures { result ≡ in_form portions gates f s }
{
    is_in_range(portions, gates, f.a, s, s.a)
        & is_in_range(portions, gates, f.b, s, s.b)
        & is_in_range(portions, gates, f.c, s, s.c)
        & is_in_range(portions, gates, f.d, s, s.d)
}
