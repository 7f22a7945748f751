// Runs for the gate: goes through the folders that the file `list` names, a line each with what it shows behind a
// blank, and prints the journal and the sheet of each as the journal program and the sheet program do, with the exit
// status of each; and through those that `list_worksites` names, and prints what is due for the worksites of each as
// the worksites program does. What goes wrong is printed too, in its place.
#![tactic(auto)]

use folder::{Names, end_run, print_gaps, print_journal, print_sheet, read_file};
use std::fmt::InlineText;
use std::io::{Stderr, Stdout, Write};
use std::process::ExitCode;
use std::rt::Files;
use std::str;

// Prints how a run ended.
fn print_status<W: Write>(output: &mut W, status: ExitCode) {
    let number = if status == ExitCode::SUCCESS { 0 } else { 1 };
    let _ = writeln!(output, "exit status {number}");
}

// Prints the journal and the sheet of a folder.
fn run_folder<R: Files>(rt: &R, folder: &str, mut output: Stdout, mut errors: Stdout) {
    let plan = InlineText::<64>::of(folder).and_str("/plan", 8);
    let calls = InlineText::<64>::of(folder).and_str("/calls", 8);
    let names = Names {
        plan: plan.as_str().as_bytes(),
        calls: calls.as_str().as_bytes(),
    };
    let journal = print_journal(rt, names, &mut output, &mut errors);
    print_status(&mut output, journal);
    let sheet = print_sheet(rt, names, &mut output, &mut errors);
    print_status(&mut output, sheet);
}

// Prints what is due for the worksites of a folder.
fn run_worksites<R: Files>(rt: &R, folder: &str, mut output: Stdout, mut errors: Stdout) {
    let worksites = InlineText::<64>::of(folder).and_str("/worksites", 16);
    let status = print_gaps(rt, worksites.as_str().as_bytes(), &mut output, &mut errors);
    print_status(&mut output, status);
}

// Prints the heading of a line of a list, and runs its folder.
fn run_line<F: Fn(&str)>(line: &str, mut output: Stdout, run: &F)
    requires { F.IsAlwaysCallable run.now }
{
    match line.split_once(' ') {
        Some((folder, shows)) => {
            let _ = writeln!(output, "{folder}: {shows}");
            run(folder);
        }
        None => {
            let _ = writeln!(output, "malformed: {line}");
        }
    }
}

// Runs the folders of a list, and gives the exit status.
fn run_list<R: Files, F: Fn(&str)>(
    rt: &R,
    name: &[u8],
    output: Stdout,
    mut errors: Stderr,
    run: &F,
) -> ExitCode
    requires { F.IsAlwaysCallable run.now }
{
    let mut text = [0; 4096];
    let list = read_file(rt, name, &mut text);
    for line in str::from_utf8(&text[..list.bytes]).unwrap_or("").lines() {
        run_line(line, output, run);
    }
    end_run(list.check(name), &mut errors)
}

fn main(rt: HostRuntime) -> ExitCode {
    let output = rt.stdout();
    let boards = run_list(
        &rt,
        b"list",
        output,
        rt.stderr(),
        &|folder: &str| {
            run_folder(&rt, folder, output, output);
        },
    );
    let worksites = run_list(
        &rt,
        b"list_worksites",
        output,
        rt.stderr(),
        &|folder: &str| {
            run_worksites(&rt, folder, output, output);
        },
    );
    if boards == ExitCode::SUCCESS {
        worksites
    } else {
        boards
    }
}
