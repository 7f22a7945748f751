// The two entries: open and call.
ghost use Rattle.std.specs.Prelude.{◌≡◌, [], ◌++◌, ◌≤◌, length, drop, ltb};
ghost use Rattle.rules.specs.Answer.{answer_no, number_no};
ghost use Rattle.rules.specs.Board.{board_of, opened};
ghost use Rattle.rules.specs.Journal.{journal_line};
ghost use Rattle.rules.specs.Step.{Kept, OpenPost, CallPost};
ghost use Rattle.rules.specs.Stored.{Stored};

use crate::taking::take;
use arrayvec::ArrayVec;
use plan::{Plan, read_plan};
use rules::{
    Answer, AuthorityNo, Booking, Called, Opened, Refusal, Register, Seven, allotted_number,
    answer_number,
};

// A freshly opened board: no gate of it is out, no portion held and no gate needed.
fn fresh(plan: Plan) -> Register
    ensures { (board_of result ≡ opened plan.portions plan.gates.items) × Stored result }
{
    let mut bookings = ArrayVec::from([Booking::default(); 64]);
    bookings.truncate(plan.gates.len());
    Register {
        portions: plan.portions,
        gates: plan.gates,
        bookings,
        day: 0,
        time: 0,
        last: AuthorityNo(0),
        blocks: 0,
        authorities: ArrayVec::new(),
        trains: ArrayVec::new(),
        exclusive_held: 0,
        twa_held: 0,
        needed: 0,
    }
}

// The board with no portion and no gate.
fn closed() -> Register
    ensures { (board_of result ≡ opened 0 []) × Stored result }
{
    fresh(Plan {
        portions: 0,
        gates: ArrayVec::new(),
    })
}

// Opens a board from a plan's text, of any bytes and any length; a text that is none is refused with 20, and gives the
// closed board.
pub fn open(text: &[u8]) -> Opened
    ensures { OpenPost text.now result }
{
    match read_plan(text) {
        Some(plan) => Opened {
            register: fresh(plan),
            answer: Ok(()),
        },
        None => Opened {
            register: closed(),
            answer: Err(Refusal::Plan),
        },
    }
}

// Fills the first 55 bytes with the journal line; later bytes stay.
fn write_journal(line: &mut [u8], s: Seven, answer: Answer)
    requires { 55 ≤ length line.old }
    ensures { line.new ≡ journal_line s (answer_no answer) (number_no answer) ++ drop 55 line.old }
{
    let numbers = [
        u32::from(s.day),
        u32::from(s.time),
        u32::from(s.call),
        u32::from(s.a),
        u32::from(s.b),
        u32::from(s.c),
        u32::from(s.d),
        u32::from(answer_number(answer)),
        u32::from(allotted_number(answer)),
    ];
    columns::write_line(line, &[6; 9], &numbers);
}

// 1: the buffer is under 55 bytes.
fn is_short(line: &[u8]) -> bool
    ensures { result ≡ ltb (length line.now) 55 }
{
    line.len() < 55
}

// Takes one call: any seven numbers, any buffer for its line. A buffer under 55 bytes gives 1 and stays as it was.
// Kept: `requires { Kept register }`, as the architecture has it of each entry: here and in take, calls and sheet. An
// invariant of Register would be asked of it between an effect and the sets that are stored behind it, too.
pub fn call(mut register: Register, seven: Seven, line: &mut [u8]) -> Called
    requires { Kept register }
    ensures { CallPost register seven line.old result line.new }
{
    if is_short(line) {
        return Called {
            register,
            answer: Err(Refusal::ShortLine),
        };
    }
    let answer = take(&mut register, seven);
    write_journal(line, seven, answer);
    Called { register, answer }
}
