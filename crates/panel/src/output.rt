// Reading and printing where the panel goes on after what fails: it is said, on standard error.
ghost use Rattle.std.specs.Prelude.{◌≤◌};

use folder::{Board, Failure, read_file};
use std::io::writer;
use std::rt::Files;

// Says what failed, where something did.
fn say_failure<R: Eprint>(rt: &R, outcome: Result<(), Failure>) {
    if let Err(failure) = outcome {
        let _ = eprintln!(rt; "{failure}");
    }
}

// Reads the file of that name to the front of the buffer, and gives what was read.
pub fn read<'a, R: Files + Eprint>(rt: &R, name: &[u8], buf: &'a mut [u8]) -> &'a [u8] {
    let filled = read_file(rt, name, buf);
    say_failure(rt, filled.check(name));
    &buf[..filled.bytes]
}

// Prints the text.
pub fn print<R: Print + Eprint>(rt: &R, text: &[u8]) {
    say_failure(rt, folder::print(&mut writer(rt), text));
}

// Prints a row of up to four numbers, each in columns of 6, and a line feed.
pub fn print_row<R: Print + Eprint, const N: usize>(rt: &R, numbers: [u16; N])
    requires { N ≤ 4 }
{
    let mut line = [b'\n'; 4 * 6 + 1];
    columns::write_line(&mut line, &[6; N], &numbers.map(u32::from));
    print(rt, &line[..6 * N + 1]);
}

// Prints a number in 6 columns and a line feed.
pub fn print_number<R: Print + Eprint>(rt: &R, n: u16) {
    print_row(rt, [n]);
}

// Prints the sheet of a board.
pub fn print_page<R: Print + Eprint>(rt: &R, board: &Board) {
    say_failure(rt, folder::print_page(board, &mut writer(rt)));
}
