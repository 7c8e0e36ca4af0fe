// The report program, run on 60,001 bytes, one more than a schedule may have: document 01's members and zeros after them.
#![tactic(auto)]

use console::run;

fn main(rt: HostRuntime) {
    run(&rt);
}
