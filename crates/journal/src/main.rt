// The journal program: reads the files `plan` and `calls` in its folder and prints the journal.
#![tactic(auto)]

use folder::Names;
use std::process::ExitCode;

fn main(rt: HostRuntime) -> ExitCode {
    let names = Names {
        plan: b"plan",
        calls: b"calls",
    };
    folder::print_journal(&rt, names, &mut rt.stdout(), &mut rt.stderr())
}
