// The desk on a stored list: document 01's "Scripts to try at the counter" (crates/counter/cases).
#![tactic(auto)]

fn main(rt: HostRuntime) {
    // However it ended, the exit status is 0.
    let _ = desk::run(rt);
}
