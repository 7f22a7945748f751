// What FULFIL, CONTINUE, MOVE and PASSED change of trains.
ghost use Rattle.std.specs.Prelude.{◌≡◌, ◌<◌, true, cond, length, position};
ghost use Rattle.std.specs.Option.{unwrap_or};
ghost use Rattle.lists.specs.Distinct.{Distinct};
ghost use Rattle.lists.specs.Order.{insert_by};
ghost use Rattle.lists.specs.Search.{first};
ghost use Rattle.sets.specs.Sets.{has};
ghost use Rattle.rules.specs.Board.{gone, is_outside, is_train, moved, no_train, train_no};
ghost use Rattle.rules.specs.Call.{authority_of};
ghost use Rattle.rules.specs.Effects.{continued, entered, freed, with_head, with_rear_in};
ghost use Rattle.effects.specs.Room.{is_above};

use arrayvec::ArrayVec;
use lists::{change, change_first};
use rules::{AuthorityNo, Gate, Train, TrainNo};

type Trains = ArrayVec<Train, 32>;

// FULFIL: the trains with the authority are then with 0.
pub fn free(trains: &mut Trains, n: AuthorityNo)
    ensures { trains.new.items ≡ freed n trains.old.items }
{
    change(
        trains,
        |t| t.with == n,
        |t| Train {
            with: AuthorityNo(0),
            ..t
        },
    );
}

// The authority of a train whose own is continued: the new one where its head is in the limits, else none.
fn authority_after(head: u16, new: AuthorityNo, limits: u64) -> AuthorityNo
    ensures { result ≡ cond (has head limits) new (authority_of 0) }
{
    if sets::has(limits, head) {
        new
    } else {
        AuthorityNo(0)
    }
}

// CONTINUE: the trains with old are then with new if their head is in its limits, else with 0.
pub fn continue_with(trains: &mut Trains, old: AuthorityNo, new: AuthorityNo, limits: u64)
    ensures { trains.new.items ≡ continued old new limits trains.old.items }
{
    change(
        trains,
        |t| t.with == old,
        |t| Train {
            with: authority_after(t.head, new, limits),
            ..t
        },
    );
}

// Where the first train with a higher number stands, if there is one.
fn first_above(trains: &[Train], n: TrainNo) -> Option<usize>
    ensures { result ≡ position (is_above n) trains.now }
{
    trains.iter().position(|t| n < t.number)
}

// One more train, put before the first with a higher number.
fn insert_train(trains: &mut Trains, t: Train)
    requires { length trains.old.items < 32 }
    ensures { trains.new.items ≡ insert_by train_no t trains.old.items }
{
    let place = first_above(trains, t.number).unwrap_or(trains.len());
    trains.insert(place, t);
}

// MOVE through the gate: from outside the train comes to its place on the board, else its head goes on; it is with n.
pub fn go_through(trains: &mut Trains, gate: Gate, t: TrainNo, n: AuthorityNo)
    requires room { is_outside gate.from ≡ true → length trains.old.items < 32 }
    requires distinct { Distinct train_no trains.old.items }
    ensures { trains.new.items ≡ cond (is_outside gate.from) (insert_by train_no (entered t gate.to n) trains.old.items)
        (moved t (with_head gate.to n) trains.old.items) }
{
    if gate.from == 99 {
        insert_train(
            trains,
            Train {
                number: t,
                head: gate.to,
                rear: gate.to,
                with: n,
            },
        );
    } else {
        change_first(
            trains,
            |x| x.number == t,
            |x| Train {
                head: gate.to,
                with: n,
                ..x
            },
        );
    }
}

// The head of the train with that number.
fn head_of(trains: &[Train], t: TrainNo) -> u16
    ensures { result ≡ (first (is_train t) no_train trains.now).head }
{
    trains::find_train(trains, t).unwrap_or_default().head
}

// PASSED: rear becomes head; a head outside takes the train off.
pub fn draw_in(trains: &mut Trains, t: TrainNo)
    requires { Distinct train_no trains.old.items }
    ensures { let ts = trains.old.items in
        trains.new.items
        ≡ cond (is_outside (first (is_train t) no_train ts).head) (gone t ts) (moved t with_rear_in ts) }
{
    if head_of(trains, t) == 99 {
        trains.retain(|x| x.number != t);
    } else {
        change_first(trains, |x| x.number == t, |x| Train { rear: x.head, ..x });
    }
}
