// The desk on a stored list: the vectors of docs/VECTORS.md (crates/vectors/cases).
#![tactic(auto)]

fn main(rt: HostRuntime) {
    // However it ended, the exit status is 0.
    let _ = desk::run(rt);
}
