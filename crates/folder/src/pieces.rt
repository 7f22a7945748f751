// The calls of a file made in pieces of whole lines, and their journal written as they are made.
ghost use Rattle.std.specs.Prelude.{◌≡◌, length};
ghost use Rattle.rules.specs.Board.{board_of};
ghost use Rattle.folder.specs.Outcomes.{RanAll};

use crate::failure::Failure;
use crate::input::fill;
use crate::open_board::Board;
use crate::output::print;
use crate::piece::{CALL_SIZE, Rest, run_piece};
use std::io::{Read, Write};

// A call's journal line has 55 bytes.
const LINE_SIZE: usize = 55;

// How many calls are read at a time.
const PIECE_LINES: usize = 1024;

// The bytes of so many calls, and of their journal lines.
const CALLS_SIZE: usize = PIECE_LINES * CALL_SIZE;

const LINES_SIZE: usize = PIECE_LINES * LINE_SIZE;

// A loop has to end, and nothing says that a file does, so the pieces are counted; no file is so long that the count is
// reached.
const MOST_PIECES: u64 = 1 << 50;

// Makes the calls of the file piece by piece, and writes the journal lines of each.
fn run_pieces<'a, F: Read, W: Write>(
    opened: Board,
    file: &mut F,
    name: &'a [u8],
    text: &mut [u8],
    out: &mut [u8],
    output: &mut W,
) -> Result<Board, Failure<'a>>
    requires { (length text.old ≡ 44032) × (length out.old ≡ 56320) }
    ensures { RanAll (board_of opened) (F.remaining file.old) (W.contents output.old) (W.contents output.new) result }
{
    let mut board = opened;
    for piece in 0..MOST_PIECES {
        let filled = fill(file, text);
        // Kept: a cast, which loses nothing: a count of lines has no `From` into 64 bits.
        let before = PIECE_LINES as u64 * piece;
        let (next, lines, rest) = run_piece(board, before, &text[..filled.bytes], CALLS_SIZE, out);
        board = next;
        print(output, &out[..LINE_SIZE * lines])?;
        filled.check(name)?;
        match rest {
            Rest::More => {}
            Rest::End => return Ok(board),
            Rest::Malformed { line } => return Err(Failure::Malformed { name, line }),
        }
    }
    Err(Failure::Endless { name })
}

// Room for so many bytes of a piece: a function of its own, whose `ensures` gives the length. Where the caller makes
// the array, the proof of its length as a slice computes so many elements that it breaks off.
fn room<const N: usize>() -> [u8; N]
    ensures { N ≡ length result }
{
    [0; N]
}

// Makes the calls of a file, to its end, on the board, and writes their journal. The file goes by that name.
pub fn run_calls<'a, F: Read, W: Write>(
    opened: Board,
    file: &mut F,
    name: &'a [u8],
    output: &mut W,
) -> Result<Board, Failure<'a>>
    ensures { RanAll (board_of opened) (F.remaining file.old) (W.contents output.old) (W.contents output.new) result }
{
    let mut text = room::<CALLS_SIZE>();
    let mut out = room::<LINES_SIZE>();
    run_pieces(opened, file, name, &mut text, &mut out, output)
}
