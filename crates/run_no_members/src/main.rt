// The report program, run on a schedule of no members.
#![tactic(auto)]

use console::run;

fn main(rt: HostRuntime) {
    run(&rt);
}
