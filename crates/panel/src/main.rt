// The panel: scenario after scenario, each a heading and the journal of its calls, or the shift sheet after them, or
// what the register then holds; and last what is due for worksites. CASES.md says what each shows and the answers that
// documents 01 and 02 ask, worked out by hand. The lists of scenarios, of sheets, of registers and of worksites, the
// plans and the calls stand in data/.
#![tactic(auto)]

mod edges;
mod gaps;
mod held;
mod list;
mod output;
mod scenario;

use held::print_held;
use list::run_list;
use output::{print, print_page};
use scenario::run_files;

fn main(rt: HostRuntime) {
    let rt = &rt;
    let silent = |_line: &[u8]| ();
    run_list(
        rt,
        b"scenarios",
        &|plan: &[u8], calls: &[u8]| {
            run_files(rt, plan, calls, &|line: &[u8]| print(rt, line));
        },
    );
    edges::buffers(rt);
    edges::last_number(rt);
    run_list(
        rt,
        b"sheets",
        &|plan: &[u8], calls: &[u8]| {
            print_page(rt, &run_files(rt, plan, calls, &silent));
        },
    );
    edges::pages(rt);
    run_list(
        rt,
        b"registers",
        &|plan: &[u8], calls: &[u8]| {
            print_held(rt, run_files(rt, plan, calls, &silent).register());
        },
    );
    gaps::run_gaps(rt, b"gaps");
}
