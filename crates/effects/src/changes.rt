// What accepted calls change of authorities and bookings, each in its place.
#![tactic(auto, using(crate::proofs::Changing::amended_by))]

ghost use Rattle.std.specs.Prelude.{◌≡◌, Some, set};
ghost use Rattle.lists.specs.Distinct.{Distinct};
ghost use Rattle.rules.specs.declared.Call.TheVariants as Call;
ghost use Rattle.rules.specs.Board.{board_of, amended, authority_no, ended};
ghost use Rattle.rules.specs.Effects.{booked_in, effect, granted, with_agreed, with_officer, with_site, with_term};
ghost use Rattle.effects.specs.Amending.{AmendedBy};
ghost use Rattle.effects.specs.Room.{HasPlace};

use arrayvec::ArrayVec;
use lists::change_first;
use rules::{Authority, AuthorityNo, Booking, GateNo, Kind, PaperNo, Register};

type Authorities = ArrayVec<Authority, 32>;

// REQUEST: one more authority, pending.
#[tactic(auto, unfolding(rules::specs::Board::board_of, rules::specs::Effects::effect))]
pub fn request(register: &mut Register, kind: Kind, first: u16, last: u16, officer: u16)
    requires { HasPlace (board_of register.old) }
    ensures { board_of register.new ≡ effect (board_of register.old) (Some (Call.Request kind first last officer)) }
{
    register.last.0 += 1;
    register.authorities.push(Authority {
        number: register.last,
        kind,
        limits: sets::run(first, last),
        officer,
        in_force: false,
        workers_on: false,
        agreed: AuthorityNo(0),
        start: 0,
        minutes: 0,
    });
}

// Takes out the authority with that number; the order of the others stays.
pub fn end_authority(authorities: &mut Authorities, n: AuthorityNo)
    ensures { authorities.new.items ≡ ended n authorities.old.items }
{
    authorities.retain(|a| a.number != n);
}

// Changes the authority with that number by f, in its place; the others stay. No two have the same number, so that it
// stops there.
fn amend<F: Fn(Authority) -> Authority>(authorities: &mut Authorities, n: AuthorityNo, f: F)
    requires callable { F.IsAlwaysCallable f }
    requires distinct { Distinct authority_no authorities.old.items }
    ensures { AmendedBy (F.post f) n authorities.old.items authorities.new.items }
{
    change_first(authorities, |a| a.number == n, f);
}

// GRANT, and CONTINUE as new: in force, workers on.
pub fn put_in_force(authorities: &mut Authorities, n: AuthorityNo)
    requires { Distinct authority_no authorities.old.items }
    ensures { authorities.new.items ≡ amended n granted authorities.old.items }
{
    amend(
        authorities,
        n,
        |a| Authority {
            in_force: true,
            workers_on: true,
            ..a
        },
    );
}

// CLEAR and REOCCUPY: the site, workers on or clear.
pub fn set_site(authorities: &mut Authorities, n: AuthorityNo, on: bool)
    requires { Distinct authority_no authorities.old.items }
    ensures { authorities.new.items ≡ amended n (with_site on) authorities.old.items }
{
    amend(
        authorities,
        n,
        |a| Authority {
            workers_on: on,
            ..a
        },
    );
}

// HAND OVER: the officer.
pub fn set_officer(authorities: &mut Authorities, n: AuthorityNo, officer: u16)
    requires { Distinct authority_no authorities.old.items }
    ensures { authorities.new.items ≡ amended n (with_officer officer) authorities.old.items }
{
    amend(authorities, n, |a| Authority { officer, ..a });
}

// AGREE, of the TWA, and JOIN, of the TOA: the authority whose officer agrees.
pub fn set_agreed(authorities: &mut Authorities, n: AuthorityNo, agreed: AuthorityNo)
    requires { Distinct authority_no authorities.old.items }
    ensures { authorities.new.items ≡ amended n (with_agreed agreed) authorities.old.items }
{
    amend(authorities, n, |a| Authority { agreed, ..a });
}

// TERM: the minute in which the term starts, and its length in minutes.
pub fn set_term(authorities: &mut Authorities, n: AuthorityNo, start: u32, minutes: u16)
    requires { Distinct authority_no authorities.old.items }
    ensures { authorities.new.items ≡ amended n (with_term start minutes) authorities.old.items }
{
    amend(
        authorities,
        n,
        |a| Authority {
            start,
            minutes,
            ..a
        },
    );
}

// Stores the booking of the gate with that number, if the plan has such a gate.
pub fn put_booking(bookings: &mut ArrayVec<Booking, 64>, g: GateNo, booking: Booking)
    ensures { bookings.new.items ≡ set bookings.old.items g.0 booking }
{
    if let Some(place) = bookings.get_mut(usize::from(g.0)) {
        *place = booking;
    }
}

// The booking that BOOK IN leaves: none where the gate is certified, else the new paper with the call's beside it.
pub fn booked_in(paper: PaperNo, certified: bool, new: PaperNo) -> Booking
    ensures { result ≡ booked_in paper certified new }
{
    if certified {
        Booking::default()
    } else {
        Booking {
            paper: new,
            replaced: paper,
        }
    }
}
