// The program of the intake desk: document 01, section "Program". Its stored list is crates/intake/cases.
#![tactic(auto)]

fn main(rt: HostRuntime) {
    // However it ended, the exit status is 0.
    let _ = desk::run(rt);
}
