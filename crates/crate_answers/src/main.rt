// The desk on scripts that the crate's own text has answered: oracle/sample.txt, made into stdin and stdout by tests/crate_answers.py.
#![tactic(auto)]

fn main(rt: HostRuntime) {
    // However it ended, the exit status is 0.
    let _ = desk::run(rt);
}
