// An open board: the register that opening and the calls have kept, the calls made on it, and its sheet.
ghost use Rattle.std.specs.Prelude.{◌≡◌, ◌*◌, ◌/◌, ◌≤◌, length, take};
ghost use Rattle.rules.specs.Answer.{answer_no, lines_no};
ghost use Rattle.rules.specs.Board.{board_of};
ghost use Rattle.rules.specs.Sheet.{SheetPost};
ghost use Rattle.rules.specs.Step.{Kept, OpenPost, CallPost};
ghost use Rattle.calls.specs.Run.{RunPost, run_of};

use rules::{Answer, Refusal, Register, Seven};
use std::marker::Model;

// A board that was opened, and on which calls may have been made: each entry keeps its register as the next one needs
// it. A clause sees the register.
#[derive(Drop)]
pub struct Board {
    register: Register,
}

impl Model for Board {
    ghost use Rattle.rules.specs.declared.Register.{Register};
    ghost use Rattle.rules.specs.Step.{Kept};

    ghost Value = { Register };

    ghost view = { λ b. b.register };

    ghost invariant = { λ b. Kept b.register };
}

impl Board {
    // The board of a register that is kept, as opening and each call return it.
    // Kept: `Kept`, here and below at `register`: what the type says of its register, taken and given.
    pub fn new(register: Register) -> Board
        requires { Kept register }
        ensures { result ≡ register }
    {
        Board { register }
    }

    // Opens a board from a plan's text. A text that is none is refused, and gives the closed board.
    pub fn open(text: &[u8]) -> (Board, Result<(), Refusal>)
        ensures { OpenPost text.now (record { register = result.0; answer = result.1 }) }
    {
        let opened = board::open(text);
        (Board::new(opened.register), opened.answer)
    }

    // Makes one call, and writes its line to the front of the buffer.
    pub fn call(self, seven: Seven, line: &mut [u8]) -> (Board, Answer)
        ensures { CallPost self seven line.old (record { register = result.0; answer = result.1 }) line.new }
    {
        let called = board::call(self.register, seven, line);
        (Board::new(called.register), called.answer)
    }

    // Makes the calls of a text, as many as out has room for their lines, and gives how many it made: these lines, 55
    // bytes each, are their journal.
    pub fn run(self, text: &[u8], out: &mut [u8]) -> (Board, usize)
        ensures ran { RunPost self text.now out.old result.0 result.1 out.new }
        ensures journal { take (55 * result.1) out.new ≡ (run_of (length out.old / 55) (board_of self) text.now).text }
        ensures within { 55 * result.1 ≤ length out.old }
    {
        let ran = calls::run(self.register, text, out);
        (Board::new(ran.register), ran.lines)
    }

    // Writes the sheet to the front of the page, and gives the number of lines. A page that is too short stays as it
    // was.
    pub fn write_sheet(&self, page: &mut [u8]) -> Result<usize, Refusal>
        ensures written { SheetPost self.now page.old (answer_no result) (lines_no result) page.new }
        ensures within { lines_no result ≤ 33 }
    {
        sheet::write_sheet(&self.register, page)
    }

    // The register, to be read.
    pub fn register(&self) -> &Register
        ensures same { result.now ≡ self.now }
        ensures kept { Kept self.now }
    {
        &self.register
    }
}
