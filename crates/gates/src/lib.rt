// The gates of a plan: the gate with a number, the gates that limits need, and gates booked out of use.
#![tactic(auto)]

ghost use Rattle.std.specs.Prelude.{◌≡◌, ◌≤◌, length};
ghost use Rattle.rules.specs.Board.{gate_at, needs};
ghost use Rattle.gates.specs.Needs.{needed_of};

mod bookings;

use arrayvec::ArrayVec;
pub use bookings::{booking_at, can_be_blocked};
use rules::{Gate, GateNo};

// The gate with that number; past those of the plan stands none, a gate from 0 to 0.
pub fn gate_at(gates: &[Gate], g: GateNo) -> Gate
    ensures { result ≡ gate_at gates.now g }
{
    // Kept: beside bookings' `booking_at`; both are one expression of std, which a generic one would only name again.
    // Kept: a default and no Option, there too: document 01's conditions ask it, and the definitions give the same.
    gates.get(usize::from(g.0)).copied().unwrap_or_default()
}

// The gate leads into the limits: its "to" is in them and its "from" isn't.
#[tactic(auto, unfolding(rules::specs::Board::needs))]
pub fn is_needed(limits: u64, gate: Gate) -> bool
    ensures { result ≡ needs limits gate }
{
    sets::has(limits, gate.to) && !sets::has(limits, gate.from)
}

// The set of the gates that lead into the limits.
#[tactic(auto, using(crate::proofs::Needs::building), unfolding(crate::specs::Needs::needed_of))]
pub fn needed(gates: &ArrayVec<Gate, 64>, limits: u64) -> u64
    ensures value { result ≡ needed_of gates.now.items limits }
    ensures fits { length gates.now.items ≤ 64 }
{
    let mut set: u64 = 0;
    for (i, gate) in gates.iter().enumerate() {
        if is_needed(limits, *gate) {
            // Kept: `try_from` can't fail here, so its error has no value; `(0u16..).zip(gates)` needs answers by hand.
            set = sets::with(set, i as u16);
        }
    }
    set
}
