// The desk on a stored list: every number that the program can give, with its place (crates/refusals/cases).
#![tactic(auto)]

fn main(rt: HostRuntime) {
    // However it ended, the exit status is 0.
    let _ = desk::run(rt);
}
