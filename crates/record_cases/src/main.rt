// Reads document 01's scripts to try at the counter through the two records that are lent: the nodes into a slice of node
// records (crate `read_records`), and the tokens back from the last to the first through the token cursor (crate `cursor`);
// and writes each script again from the records of its nodes (crate `encode_records`). Three scripts with keys follow them.
// All tables are ample and full of junk before. For each script it writes: the script; the seven numbers of the answer; if
// it is accepted, each token as it is looked at, taken and put back: its code, number and place and how many are left after
// it; the eight records, nine numbers each; and the four numbers of the encoder's answer with the bytes that it wrote. After
// a refusal there is no node, so the encoder refuses with 21.
// The stored output is that of tests/record_cases.py, a reading of document 01 in Python.
#![tactic(auto)]

ghost use Rattle.std.specs.Prelude.{◌≡◌, ◌+◌, ◌-◌, ◌*◌, ◌≤◌, ◌<◌, length};

use decode::Answer;
use encode::Encoded;
use judge::Node;
use printing::{cell, line, short_number, space};

// The seven numbers of an answer. Here, since printing stands on no crate that has the answer's type.
fn header(a: Answer) {
    printing::header(
        a.number, a.reason, a.place, a.tokens, a.steps, a.nodes, a.keys,
    );
}

// The token that is next is looked at, taken, put back and taken again.
fn show_next(tokens: &[u32], left: usize) -> usize
    requires { (1 ≤ left) × (3 * left ≤ length tokens.now) }
    ensures { result ≡ left - 1 }
{
    let ahead = cursor::look(tokens, left);
    let once = cursor::take(tokens, left);
    let back = cursor::put_back(tokens, once.left);
    let again = cursor::take(tokens, back);
    io::write_all(1, b"t");
    if let Some(token) = ahead {
        cell(token.code);
        cell(token.number);
        cell(token.place);
    }
    space();
    io::print_hex(1, again.left as u64, 1);
    line();
    again.left
}

// All tokens, the last one first.
fn show_tokens(tokens: &[u32], count: usize)
    requires { 3 * count ≤ length tokens.now }
{
    let mut left = count;
    // No for: a turn goes on where the cursor stands.
    while 0 < left {
        left = show_next(tokens, left);
    }
}

// A record's nine numbers.
fn show_record(n: Node) {
    io::write_all(1, b"r");
    cell(n.kind);
    cell(n.number);
    cell(n.count);
    cell(n.place);
    cell(n.size);
    cell(n.base);
    cell(n.input);
    cell(n.d);
    cell(n.u);
    line();
}

// A reading into tables full of junk, and one of its records.
fn read_into_junk(kind: u32, script: &[u8], i: usize)
    requires { i < 8 }
{
    let mut tokens = [0xdeadbeefu32; 31];
    let mut nodes = [0xdeadbeefu32; 74];
    let mut keys = [0xdeadbeefu32; 3];
    let mut work = [0xdeadbeefdeadbeefu64; 12];
    let n = own_records::record_read(
        kind,
        script,
        &mut tokens,
        &mut nodes,
        &mut keys,
        &mut work,
        i,
    );
    show_record(n);
}

fn show_records(kind: u32, script: &[u8]) {
    for i in 0..8 {
        read_into_junk(kind, script, i);
    }
}

// So many bytes from the front of the output.
fn show_bytes(out: &[u8], size: usize) {
    for b in out.iter().take(size) {
        space();
        io::print_hex(1, u64::from(*b), 2);
    }
}

// The four numbers of the encoder's answer.
fn show_answer(e: Encoded) {
    io::write_all(1, b"e ");
    short_number(e.number);
    short_number(e.reason);
    printing::size(e.place);
    io::print_hex(1, e.bytes as u64, 8);
}

// The script written again from the records of its nodes, with ample tables and an output full of junk before.
fn show_written(kind: u32, script: &[u8]) {
    let mut tokens = [0xdeadbeefu32; 31];
    let mut nodes = [0xdeadbeefu32; 74];
    let mut keys = [0xdeadbeefu32; 3];
    let mut work = [0xdeadbeefdeadbeefu64; 66];
    let mut out = [0xaau8; 80];
    let e = own_records::written_again(
        kind,
        script,
        &mut tokens,
        &mut nodes,
        &mut keys,
        &mut work,
        &mut out,
    );
    show_answer(e);
    show_bytes(&out, e.bytes);
    line();
}

// The answer, and the tokens of a script that is accepted.
fn show_reading(kind: u32, script: &[u8]) {
    let mut tokens = [0xdeadbeefu32; 31];
    let mut nodes = [0xdeadbeefu32; 74];
    let mut keys = [0xdeadbeefu32; 3];
    let mut work = [0xdeadbeefdeadbeefu64; 12];
    let a = decode::read(kind, script, &mut tokens, &mut nodes, &mut keys, &mut work);
    header(a);
    if a.number == 0 && a.tokens <= 10 {
        show_tokens(&tokens, a.tokens);
    }
}

fn run(kind: u32, hex: &[u8]) {
    io::print_hex(1, u64::from(kind), 2);
    io::write_all(1, hex);
    line();
    let mut script = [0u8; 80];
    let n = hex_text::unhex(hex, &mut script);
    show_reading(kind, &script[..n]);
    show_records(kind, &script[..n]);
    show_written(kind, &script[..n]);
}

// The twelve before the bar.
fn proved_together() {
    for hex in [
        "",
        "51",
        "516951",
        "5169516951",
        "6351670068",
        "517c519b",
        "005187",
        "005287",
        "6351",
        "8769",
        "00b2",
        "7663516968",
    ] {
        run(0, hex.as_bytes());
    }
}

// The script of 10,001 bytes, in the same tables: its length alone refuses it.
fn run_long() {
    io::write_all(1, b"00 10001 times 51\n");
    let script = [0x51u8; 10001];
    show_reading(0, &script);
    show_records(0, &script);
    show_written(0, &script);
}

// Those behind it: one that is accepted, pushes, other opcodes.
fn run_only() {
    for hex in [
        "51b2", "0105", "0111", "0180", "0191", "027f00", "4c", "4f", "88",
    ] {
        run(0, hex.as_bytes());
    }
    run_long();
}

// Two scripts with keys, which none of the counter's has, and one that is spelt in two ways: NUMEQUAL VERIFY comes back as
// one opcode.
fn run_keys() {
    run(
        0,
        b"51210211111111111111111111111111111111111111111111111111111111111111112103222222222222222222222222222222222222222222222222222222222222222252ae",
    );
    run(
        1,
        b"201111111111111111111111111111111111111111111111111111111111111111ac202222222222222222222222222222222222222222222222222222222222222222ba529c",
    );
    run(
        1,
        b"201111111111111111111111111111111111111111111111111111111111111111ac519c6951",
    );
}

fn main() {
    proved_together();
    run_only();
    run_keys();
}
