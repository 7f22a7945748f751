// One scenario: a board opened from a plan's file, and the calls of a second file put to it one by one.
use crate::output::{print, print_number, read};
use calls::read_line;
use folder::{Board, PLAN_SIZE};
use rules::{Refusal, Seven};
use std::rt::Files;

// Opens a board from a plan's file.
pub fn open_board<R: Files + Eprint>(rt: &R, plan: &[u8]) -> (Board, Result<(), Refusal>) {
    let mut text = [0; PLAN_SIZE];
    Board::open(read(rt, plan, &mut text))
}

// Puts one call to the board, and hands its journal line on.
pub fn put_call<L: Fn(&[u8])>(board: Board, seven: Seven, on_line: &L) -> Board
    requires { L.IsAlwaysCallable on_line.now }
{
    let mut line = [0; 55];
    let (board, _answer) = board.call(seven, &mut line);
    on_line(&line);
    board
}

// Puts the calls to the board, a line of 43 bytes each, and hands their journal lines on.
fn put_lines<R: Print + Eprint, L: Fn(&[u8])>(
    rt: &R,
    opened: Board,
    calls: &[u8],
    on_line: &L,
) -> Board
    requires { L.IsAlwaysCallable on_line.now }
{
    let mut board = opened;
    for line in calls.chunks_exact(43) {
        match read_line(line) {
            Some(seven) => board = put_call(board, seven, on_line),
            None => print(rt, b"malformed\n"),
        }
    }
    board
}

// Opens a board from a plan's file, prints the answer if it is refused, and puts at most 100 calls to it, whose journal
// lines it hands on.
pub fn run_files<R: Files + Print + Eprint, L: Fn(&[u8])>(
    rt: &R,
    plan: &[u8],
    calls: &[u8],
    on_line: &L,
) -> Board
    requires { L.IsAlwaysCallable on_line.now }
{
    let (board, answer) = open_board(rt, plan);
    if let Err(refusal) = answer {
        print_number(rt, u16::from(refusal));
    }
    let mut text = [0; 100 * 43];
    let calls = read(rt, calls, &mut text);
    put_lines(rt, board, calls, on_line)
}
