// The report program, run on a schedule whose second member has a field out of range.
#![tactic(auto)]

use console::run;

fn main(rt: HostRuntime) {
    run(&rt);
}
