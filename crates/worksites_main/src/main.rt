// The worksites program: reads the file `worksites` in its folder and prints what is due for each gap between them.
#![tactic(auto)]

use std::process::ExitCode;

fn main(rt: HostRuntime) -> ExitCode {
    folder::print_gaps(&rt, b"worksites", &mut rt.stdout(), &mut rt.stderr())
}
