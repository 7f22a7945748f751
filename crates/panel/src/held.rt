// What a register holds, printed in its order: the numbers of the live authorities, then of each train its number,
// head, rear and authority, then of each gate that is out its number, its paper and the paper that this one replaced,
// then the portions held by exclusive authorities, those held by TWAs and the gates needed.
use crate::output::{print, print_number, print_row};
use rules::{PaperNo, Register};
use sets::has;

// Prints the members of a set, ascending, a line for each, under its heading.
fn print_set<R: Print + Eprint>(rt: &R, heading: &[u8], set: u64) {
    print(rt, heading);
    for member in 0..64 {
        if has(set, member) {
            print_number(rt, member);
        }
    }
}

// Prints what the register holds, in its order, a line for each.
pub fn print_held<R: Print + Eprint>(rt: &R, register: &Register) {
    print(rt, b"authorities\n");
    for authority in &register.authorities {
        print_number(rt, authority.number.0);
    }
    print(rt, b"trains\n");
    for train in &register.trains {
        print_row(rt, [train.number.0, train.head, train.rear, train.with.0]);
    }
    print(rt, b"bookings\n");
    for (gate, booking) in (0..).zip(&register.bookings) {
        if booking.paper != PaperNo(0) {
            print_row(rt, [gate, booking.paper.0, booking.replaced.0]);
        }
    }
    print_set(rt, b"exclusive held\n", register.exclusive_held);
    print_set(rt, b"twa held\n", register.twa_held);
    print_set(rt, b"needed\n", register.needed);
}
