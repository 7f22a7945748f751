// The cases of what is due for the gaps between worksites: a file with a line for each, which has the bytes of the
// buffer, the kind, the officer's statement and the worksites as FROM-TO, a blank between them, and behind a colon and
// a blank the heading. A worksite with nothing before or behind its hyphen is a to or a from alone.
use crate::output::{print, print_row, read};
use arrayvec::ArrayVec;
use std::rt::Files;
use std::str;
use worksites::write_gaps;

// The longest buffer of a case.
const MOST_ROOM: usize = 544;

// The number that a word is; the greatest, where it is none.
fn number(word: Option<&str>) -> u32 {
    word.and_then(|digits| digits.parse::<u32>().ok())
        .unwrap_or(u32::MAX)
}

// A number of no more than 16 bits.
fn small(n: usize) -> u16 {
    u16::try_from(n).unwrap_or(u16::MAX)
}

// Adds the metre that a word is, where it is one.
fn add(metres: &mut ArrayVec<u32, 40>, word: &str) {
    if let Ok(metre) = word.parse::<u32>() {
        let _ = metres.try_push(metre);
    }
}

// Prints the answer for a list, how many lines there are, and how many bytes at the buffer's end stayed as they were;
// then the lines.
fn show<R: Print + Eprint>(rt: &R, kind: u16, stated: u16, from: &[u32], to: &[u32], room: usize) {
    let mut buffer = [b'.'; MOST_ROOM];
    let lines = &mut buffer[..room.min(MOST_ROOM)];
    let (answer, count) = match write_gaps(kind, stated, from, to, lines) {
        Ok(count) => (0, count),
        Err(refusal) => (u16::from(refusal), 0),
    };
    let stay = lines.iter().rev().take_while(|byte| **byte == b'.').count();
    print_row(rt, [answer, small(count), small(stay)]);
    for line in lines.chunks_exact(17).take(count) {
        print(rt, line);
    }
}

// Prints the heading of a line, and shows its case.
fn show_line<R: Print + Eprint>(rt: &R, line: &str) {
    let Some((case, heading)) = line.split_once(": ") else {
        print(rt, b"malformed\n");
        return;
    };
    print(rt, heading.as_bytes());
    print(rt, b"\n");
    let mut words = case.split(' ');
    let room = number(words.next()) as usize;
    let kind = small(number(words.next()) as usize);
    let stated = small(number(words.next()) as usize);
    let mut from = ArrayVec::new();
    let mut to = ArrayVec::new();
    for word in words {
        let (start, end) = word.split_once('-').unwrap_or((word, word));
        add(&mut from, start);
        add(&mut to, end);
    }
    show(rt, kind, stated, &from, &to, room);
}

// Shows the cases of the file.
pub fn run_gaps<R: Files + Print + Eprint>(rt: &R, file: &[u8]) {
    let mut text = [0; 8192];
    for line in str::from_utf8(read(rt, file, &mut text))
        .unwrap_or("malformed")
        .lines()
    {
        show_line(rt, line);
    }
}
