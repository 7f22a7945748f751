// The cases that no file of calls can show: buffers of other lengths, for a line and for a page, and the last number
// allotted.
use crate::output::{print, print_number};
use crate::scenario::{open_board, put_call, run_files};
use folder::Board;
use rules::{Seven, answer_number};
use std::rt::Files;

// A REQUEST by officer 7 for an LPA over portion 1.
fn request() -> Seven {
    Seven {
        day: 1,
        time: 600,
        call: 1,
        a: 1,
        b: 1,
        c: 1,
        d: 7,
    }
}

// The WITHDRAW of an authority of officer 7.
fn withdraw(number: u16) -> Seven {
    Seven {
        day: 1,
        time: 600,
        call: 2,
        a: number,
        b: 7,
        c: 0,
        d: 0,
    }
}

// Puts a REQUEST with the buffer given; prints the answer, then the whole buffer as it comes back.
fn request_into<R: Print + Eprint>(rt: &R, board: Board, buffer: &mut [u8]) -> Board {
    let (board, answer) = board.call(request(), buffer);
    print_number(rt, answer_number(answer));
    print(rt, buffer);
    print(rt, b"\n");
    board
}

// 54 bytes give 1 and stay as they were; 55 serve, and have number 1; of 60 the later five stay.
pub fn buffers<R: Files + Print + Eprint>(rt: &R) {
    print(rt, b"buffers of 54, 55 and 60 bytes\n");
    let (board, _answer) = open_board(rt, b"plan-line");
    let mut short = [46u8; 54];
    let board = request_into(rt, board, &mut short);
    let mut just = [46u8; 55];
    let board = request_into(rt, board, &mut just);
    let mut long = [46u8; 60];
    request_into(rt, board, &mut long);
}

// A REQUEST and its WITHDRAW, not printed.
fn request_and_withdraw(board: Board, number: u16) -> Board {
    let silent = |_line: &[u8]| ();
    let requested = put_call(board, request(), &silent);
    put_call(requested, withdraw(number), &silent)
}

// 9998 numbers allotted, and none live.
fn nearly_all_allotted(opened: Board) -> Board {
    let mut board = opened;
    for number in 1..9999 {
        board = request_and_withdraw(board, number);
    }
    board
}

// The last number is 9999. After it every REQUEST is 9, though no authority is live.
pub fn last_number<R: Files + Print + Eprint>(rt: &R) {
    print(rt, b"9999 numbers allotted\n");
    let (opened, _answer) = open_board(rt, b"plan-line");
    let mut board = nearly_all_allotted(opened);
    let calls = [
        request(),
        request(),
        withdraw(9999),
        request(),
        withdraw(9999),
    ];
    for seven in calls {
        board = put_call(board, seven, &|line: &[u8]| print(rt, line));
    }
}

// Writes the sheet into the buffer given; prints the answer and the number of lines, then the whole buffer as it comes
// back.
fn sheet_into<R: Print + Eprint>(rt: &R, board: &Board, buffer: &mut [u8]) {
    let (answer, lines) = match board.write_sheet(buffer) {
        // Kept: a cast, which loses nothing: a page has 33 lines at most.
        Ok(lines) => (0, lines as u16),
        Err(refusal) => (u16::from(refusal), 0),
    };
    print_number(rt, answer);
    print_number(rt, lines);
    print(rt, buffer);
    print(rt, b"\n");
}

// 2408 bytes give 23 and stay as they were; 2409 serve, and later bytes stay, also of 2500; with 32 authorities live
// 2409 are filled.
pub fn pages<R: Files + Print + Eprint>(rt: &R) {
    print(rt, b"pages of 2408, 2409 and 2500 bytes\n");
    let silent = |_line: &[u8]| ();
    let board = run_files(rt, b"plan-line", b"calls-e1-e6", &silent);
    let mut short = [46u8; 2408];
    sheet_into(rt, &board, &mut short);
    let mut just = [46u8; 2409];
    sheet_into(rt, &board, &mut just);
    let mut long = [46u8; 2500];
    sheet_into(rt, &board, &mut long);
    print(rt, b"a page of 33 lines in 2409 bytes\n");
    let full = run_files(rt, b"plan-full", b"calls-sheet-32", &silent);
    sheet_into(rt, &full, &mut just);
}
