// The sheet program: reads the files `plan` and `calls` in its folder, makes the calls, and prints the sheet for the
// outgoing supervisor.
#![tactic(auto)]

use folder::Names;
use std::process::ExitCode;

fn main(rt: HostRuntime) -> ExitCode {
    let names = Names {
        plan: b"plan",
        calls: b"calls",
    };
    folder::print_sheet(&rt, names, &mut rt.stdout(), &mut rt.stderr())
}
