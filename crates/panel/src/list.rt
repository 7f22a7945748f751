// The list of scenarios, a file with a line for each: the plan's file name, a blank, the calls' file name, a blank, and
// the heading.
use crate::output::{print, read};
use std::rt::Files;

// Prints the heading of a line, with its line feed, and shows the scenario of the plan and the calls.
fn run_line<R: Print + Eprint, S: Fn(&[u8], &[u8])>(rt: &R, line: &[u8], show: &S)
    requires { S.IsAlwaysCallable show.now }
{
    let mut fields = line.splitn(3, |byte| *byte == b' ');
    match (fields.next(), fields.next(), fields.next()) {
        (Some(plan), Some(calls), Some(heading)) if line.ends_with(b"\n") => {
            print(rt, heading);
            show(plan, calls);
        }
        _ => print(rt, b"malformed\n"),
    }
}

// Shows the scenarios of the file, each as `show` does with its plan's and its calls' file. There is room for some 300
// lines.
pub fn run_list<R: Files + Print + Eprint, S: Fn(&[u8], &[u8])>(rt: &R, file: &[u8], show: &S)
    requires { S.IsAlwaysCallable show.now }
{
    let mut text = [0; 16384];
    for line in read(rt, file, &mut text).split_inclusive(|byte| *byte == b'\n') {
        run_line(rt, line, show);
    }
}
