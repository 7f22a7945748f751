// Gates booked out of use (02, order 6): a gate's booking, and whether the gate can be blocked.
ghost use Rattle.std.specs.Prelude.{◌≡◌};
ghost use Rattle.rules.specs.Board.{board_of, booking_at, can_be_blocked};

use rules::{Booking, GateNo, PaperNo, Register};

// The booking of the gate with that number; past the gates of the plan stands none.
pub fn booking_at(bookings: &[Booking], g: GateNo) -> Booking
    ensures { result ≡ booking_at bookings.now g }
{
    bookings.get(usize::from(g.0)).copied().unwrap_or_default()
}

// The gate can be blocked: it isn't a plain automatic signal, or it is out.
#[tactic(auto, unfolding(rules::specs::Board::board_of, rules::specs::Board::is_out, rules::specs::Board::can_be_blocked))]
pub fn can_be_blocked(register: &Register, g: GateNo) -> bool
    ensures { result ≡ can_be_blocked (board_of register.now) g }
{
    crate::gate_at(&register.gates, g).kind != 4
        || booking_at(&register.bookings, g).paper != PaperNo(0)
}
