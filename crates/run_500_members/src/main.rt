// The report program, run on 500 members, as many as a schedule may have.
#![tactic(auto)]

use console::run;

fn main(rt: HostRuntime) {
    run(&rt);
}
