// Runs the lexer on document 01's scripts that are its matter and on the edges of its rules, and writes for each: the script, number, place and tokens, then each token's code, number and place. At the end, the room that some scripts need.
#![tactic(auto)]

use lex::Refused;
use printing::{line, space};

// Number, place and tokens: document 01's three numbers of an answer.
fn header(number: u32, place: usize, tokens: usize) {
    io::print_hex(1, u64::from(number), 2);
    space();
    io::print_hex(1, place as u64, 8);
    space();
    io::print_hex(1, tokens as u64, 8);
    line();
}

// The first n tokens of a table.
fn show(table: &[u32], n: usize) {
    for token in table.chunks_exact(3).take(n) {
        if let [code, number, place] = token {
            io::print_hex(1, u64::from(*code), 2);
            space();
            io::print_hex(1, u64::from(*number), 8);
            space();
            io::print_hex(1, u64::from(*place), 8);
            line();
        }
    }
}

fn lex_and_show(s: &[u8], t: &mut [u32]) {
    match lex::lex(s, t) {
        Ok(n) => {
            header(0, 0, n);
            show(t, n);
        }
        Err(Refused { number, place }) => header(number, place, 0),
    }
}

// A script of these bytes and so many times aa behind them, with room for so many tokens.
fn run(hex: &[u8], more: usize, room: usize) {
    io::write_all(1, hex);
    line();
    let mut script = [0xaau8; 10001];
    let n = hex_text::unhex(hex, &mut script);
    let mut table = [7u32; 48];
    if script.len() - n < more || 16 < room {
        return;
    }
    lex_and_show(&script[..n + more], &mut table[..3 * room]);
}

fn verify_rule() {
    for hex in ["8769", "8869", "9c69", "ac69", "ae69", "88", "889dadaf"] {
        run(hex.as_bytes(), 0, 16);
    }
}

fn numbers() {
    for hex in [
        "0105",
        "0181",
        "0111",
        "0180",
        "0191",
        "027f00",
        "020080",
        "028000",
        "04ffffff7f",
        "050000000001",
    ] {
        run(hex.as_bytes(), 0, 16);
    }
}

fn pushes() {
    for (hex, more) in [
        ("14", 20),
        ("20", 32),
        ("21", 33),
        ("41", 65),
        ("4c", 0),
        ("4c01", 0),
        ("4c4b", 75),
        ("4c4c", 76),
        ("4dff00", 255),
        ("4d0001", 256),
        ("4d0001", 255),
        ("4effff0000", 0),
        ("01", 0),
        ("5102aa", 0),
    ] {
        run(hex.as_bytes(), more, 16);
    }
}

fn limits() {
    for (hex, more, room) in [
        ("", 0, 16),
        ("", 10001, 16),
        ("4f", 0, 16),
        ("6351670068", 0, 16),
        ("5188", 0, 2),
        ("5188", 0, 3),
        ("514f", 0, 1),
        ("5151", 0, 1),
        ("51", 0, 0),
    ] {
        run(hex.as_bytes(), more, room);
    }
}

// The sizes that are ample for a script, or its refusal.
fn room_of(hex: &[u8]) {
    io::write_all(1, hex);
    line();
    let mut script = [0u8; 64];
    let n = hex_text::unhex(hex, &mut script);
    match lex::room(&script[..n]) {
        Ok(sizes) => {
            header(0, 0, sizes.tokens);
            header(0, sizes.nodes, sizes.keys);
            io::print_hex(1, sizes.work as u64, 8);
            line();
        }
        Err(Refused { number, place }) => header(number, place, 0),
    }
}

fn main() {
    verify_rule();
    numbers();
    pushes();
    limits();
    for hex in ["", "516951", "889dadaf", "5102aa"] {
        room_of(hex.as_bytes());
    }
}
