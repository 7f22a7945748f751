// A piece of a text of calls run on a board.
ghost use Rattle.rules.specs.Step.{Kept};
ghost use Rattle.calls.specs.Run.{RunPost};

use crate::journal::write_journal;
use crate::lines::read_line;
use board::take;
use rules::Register;

// The register after a run, and how many calls it made.
#[derive(Clone, Drop)]
pub struct AfterRun {
    pub register: Register,
    pub lines: usize,
}

// The run on a register that is lent: how many calls it made.
// Kept: `Kept`, here and below, as board's `call` says.
// Kept: out is cut by an index, and not by a zip with its chunks_exact_mut: a proof knows nothing of what is written
// through them.
fn run_lines(register: &mut Register, text: &[u8], out: &mut [u8]) -> usize
    requires { Kept register.old }
    ensures { RunPost register.old text.now out.old register.new result out.new }
{
    let mut lines = 0;
    for line in text.chunks_exact(43).take(out.len() / 55) {
        let Some(seven) = read_line(line) else {
            return lines;
        };
        let answer = take(register, seven);
        write_journal(line, seven, answer, &mut out[55 * lines..55 * lines + 55]);
        lines += 1;
    }
    lines
}

// Makes the calls of a text in order, up to a malformed line, and puts their journal lines to the front of out: as many
// calls at most as out has room for. Later bytes stay.
// Kept: never inlined: in the loop over the pieces of a file it took five per cent longer.
#[inline(never)]
pub fn run(mut register: Register, text: &[u8], out: &mut [u8]) -> AfterRun
    requires { Kept register }
    ensures { RunPost register text.now out.old result.register result.lines out.new }
{
    let lines = run_lines(&mut register, text, out);
    AfterRun { register, lines }
}
