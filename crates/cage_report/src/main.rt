// The report program, run on document 01's schedule of three members.
#![tactic(auto)]

use console::run;

fn main(rt: HostRuntime) {
    run(&rt);
}
