// Runs the reader on document 01's scripts to try at the counter and on a few more, each with tables that are ample for it
// and with each table one entry too small, odd cells included, and junk in all of them before. For each run it writes: the
// script kind and the script; number, reason, place, tokens, steps, nodes and keys; then, each on a line of its own and
// whole, cell by cell in hexadecimal, the token table (t), the node table (n), the key table (k) and the work table (w).
// The stored output is not taken from this program: tests/reader_cases.py writes it with a reader of its own, and finds by
// trying the least room of each table with which a script's answer stays the same.
#![tactic(auto)]

use decode::Answer;
use printing::{line, table};

// How many cells each table has; of a script, how many entries of each it needs. Not lex's Sizes: those are entries only.
#[derive(Clone, Copy)]
struct Sizes {
    tokens: usize,
    nodes: usize,
    keys: usize,
    work: usize,
}

// Ample: 10 tokens and a cell, 8 nodes and two cells, 3 keys, 12 work entries.
const AMPLE: Sizes = Sizes {
    tokens: 31,
    nodes: 74,
    keys: 3,
    work: 12,
};

// The seven numbers of an answer. Here, since printing stands on no crate that has the answer's type.
fn header(a: Answer) {
    printing::header(
        a.number, a.reason, a.place, a.tokens, a.steps, a.nodes, a.keys,
    );
}

fn read_and_show(
    kind: u32,
    script: &[u8],
    tokens: &mut [u32],
    nodes: &mut [u32],
    keys: &mut [u32],
    work: &mut [u64],
) {
    let a = decode::read(kind, script, tokens, nodes, keys, work);
    header(a);
    table(b"t", tokens);
    table(b"n", nodes);
    table(b"k", keys);
    table(b"w", work);
}

// A script, with tables of so many cells, all of them full of junk.
fn with_tables(kind: u32, script: &[u8], cells: Sizes) {
    let mut tokens = [0xdeadbeefu32; 31];
    let mut nodes = [0xdeadbeefu32; 74];
    let mut keys = [0xdeadbeefu32; 3];
    let mut work = [0xdeadbeefdeadbeefu64; 12];
    if 31 < cells.tokens || 74 < cells.nodes || 3 < cells.keys || 12 < cells.work {
        return;
    }
    read_and_show(
        kind,
        script,
        &mut tokens[..cells.tokens],
        &mut nodes[..cells.nodes],
        &mut keys[..cells.keys],
        &mut work[..cells.work],
    );
}

// A script of these bytes and so many times aa behind them, with tables of so many cells.
fn run(kind: u32, hex: &[u8], more: usize, cells: Sizes) {
    io::print_hex(1, u64::from(kind), 2);
    io::write_all(1, hex);
    line();
    let mut script = [0xaau8; 10001];
    let n = hex_text::unhex(hex, &mut script);
    if script.len() - n < more {
        return;
    }
    with_tables(kind, &script[..n + more], cells);
}

// Ample tables. Then each table one entry short of what the script needs, of which the last token and the last node lack one
// cell only.
fn ample_and_short(kind: u32, hex: &[u8], more: usize, needs: Sizes) {
    run(kind, hex, more, AMPLE);
    if 10 < needs.tokens || 8 < needs.nodes {
        return;
    }
    if 0 < needs.tokens {
        let tokens = 3 * needs.tokens - 1;
        run(kind, hex, more, Sizes { tokens, ..AMPLE });
    }
    if 0 < needs.nodes {
        let nodes = 9 * needs.nodes - 1;
        run(kind, hex, more, Sizes { nodes, ..AMPLE });
    }
    if 0 < needs.keys {
        let keys = needs.keys - 1;
        run(kind, hex, more, Sizes { keys, ..AMPLE });
    }
    if 0 < needs.work {
        let work = needs.work - 1;
        run(kind, hex, more, Sizes { work, ..AMPLE });
    }
}

// A script that needs no key.
fn keyless(kind: u32, hex: &str, more: usize, tokens: usize, nodes: usize, work: usize) {
    let needs = Sizes {
        tokens,
        nodes,
        keys: 0,
        work,
    };
    ample_and_short(kind, hex.as_bytes(), more, needs);
}

// The twelve before the bar: the tokens, nodes and work entries that each needs.
fn proved_together() {
    for (hex, tokens, nodes, work) in [
        ("", 0, 0, 2),
        ("51", 1, 1, 2),
        ("516951", 3, 4, 3),
        ("5169516951", 5, 7, 4),
        ("6351670068", 5, 3, 4),
        ("517c519b", 4, 1, 6),
        ("005187", 3, 2, 3),
        ("005287", 3, 1, 3),
        ("6351", 2, 1, 2),
        ("8769", 1, 0, 0),
        ("00b2", 2, 0, 2),
        ("7663516968", 5, 3, 5),
    ] {
        keyless(0, hex, 0, tokens, nodes, work);
    }
}

// Those behind it.
fn run_only() {
    for (hex, more, tokens, nodes, work) in [
        ("51b2", 0, 2, 1, 2),
        ("0105", 0, 0, 0, 0),
        ("0111", 0, 1, 0, 2),
        ("0180", 0, 0, 0, 0),
        ("0191", 0, 0, 0, 0),
        ("027f00", 0, 0, 0, 0),
        ("4c", 0, 0, 0, 0),
        ("4f", 0, 0, 0, 0),
        ("88", 0, 2, 0, 2),
        ("", 10001, 0, 0, 0),
    ] {
        keyless(0, hex, more, tokens, nodes, work);
    }
}

// Keys in either kind, a kind that there is none of, and an or_d over d:, which is no unit in either kind.
fn keys_and_kinds() {
    let two_keys = Sizes {
        tokens: 5,
        nodes: 1,
        keys: 2,
        work: 2,
    };
    ample_and_short(
        0,
        b"51210211111111111111111111111111111111111111111111111111111111111111112103222222222222222222222222222222222222222222222222222222222222222252ae",
        0,
        two_keys,
    );
    ample_and_short(
        1,
        b"201111111111111111111111111111111111111111111111111111111111111111ac202222222222222222222222222222222222222222222222222222222222222222ba529c",
        0,
        Sizes {
            tokens: 6,
            ..two_keys
        },
    );
    keyless(2, "51", 0, 0, 0, 0);
    keyless(0, "766351696873645168", 0, 9, 4, 6);
    keyless(1, "766351696873645168", 0, 9, 4, 6);
}

fn main() {
    proved_together();
    run_only();
    keys_and_kinds();
}
