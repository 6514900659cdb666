// The desk on a stored list: the edges of the program's tables (crates/limits/cases).
#![tactic(auto)]

fn main(rt: HostRuntime) {
    // However it ended, the exit status is 0.
    let _ = desk::run(rt);
}
