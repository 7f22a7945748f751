// The journal line of a call that was read off a line of text.
ghost use Rattle.std.specs.Prelude.{◌≡◌, Some, length};
ghost use Rattle.rules.specs.Answer.{answer_no, number_no};
ghost use Rattle.rules.specs.Journal.{journal_line};
ghost use Rattle.calls.specs.CallLine.{line_in};

use columns::write_line;
use rules::{Answer, Seven, allotted_number, answer_number};

// Fills the buffer with the journal line of the call on a line: the call's seven numbers as they stand there, and what
// was answered.
// Kept: beside board's `write_journal`, which writes all nine numbers: with it the journal program took nearly twice as
// long (0.46 s for 0.26 s) and longer than the plain Rust program.
pub fn write_journal(text: &[u8], s: Seven, answer: Answer, out: &mut [u8])
    requires { (line_in text.now ≡ Some s) × (length out.old ≡ 55) }
    ensures { out.new ≡ journal_line s (answer_no answer) (number_no answer) }
{
    let (numbers, answered) = out.split_at_mut(42);
    numbers.copy_from_slice(&text[..42]);
    write_line(
        answered,
        &[6; 2],
        &[
            u32::from(answer_number(answer)),
            u32::from(allotted_number(answer)),
        ],
    );
}
