// One piece of a file of calls: the calls made on the board, and how the file goes on behind the piece.
ghost use Rattle.std.specs.Prelude.{◌≡◌, ◌*◌, ◌^◌, ◌<◌, ◌≤◌, length};
ghost use Rattle.rules.specs.Board.{board_of};
ghost use Rattle.folder.specs.Behind.{behind, PieceRan};

use crate::open_board::Board;

// A call's line has 43 bytes.
pub const CALL_SIZE: usize = 43;

// How a file of calls goes on behind a piece of it.
#[derive(Clone, Copy, Debug)]
pub enum Rest {
    // There is more to read.
    More,
    // The piece was the last.
    End,
    // A line is malformed, and no call is made from it on; lines count from 1.
    Malformed { line: u64 },
}

// How a file goes on behind a piece: so many lines come before it, so many of its own were calls that were made, it has
// so many bytes, and there was room for so many.
fn rest_behind(before: u64, lines: usize, bytes: usize, room: usize) -> Rest
    requires { (before < 2 ^ 60) × (lines ≤ 1024) }
    ensures { result ≡ behind before lines bytes room }
{
    if CALL_SIZE * lines != bytes {
        return Rest::Malformed {
            // Kept: a cast, which loses nothing: a count of lines has no `From` into 64 bits.
            line: before + lines as u64 + 1,
        };
    }
    if bytes < room { Rest::End } else { Rest::More }
}

// Makes the calls of a piece, a text that was read into so much room, and puts their lines to the front of out: the
// board after them, how many they are, and how the file goes on.
pub fn run_piece(
    board: Board,
    before: u64,
    text: &[u8],
    room: usize,
    out: &mut [u8],
) -> (Board, usize, Rest)
    requires { (before < 2 ^ 60) × (length out.old ≡ 56320) }
    ensures ran { PieceRan before room (board_of board) text.now result.0 result.1 result.2 out.new }
    ensures within { 55 * result.1 ≤ length out.old }
{
    let (board, lines) = board.run(text, out);
    (board, lines, rest_behind(before, lines, text.len(), room))
}
