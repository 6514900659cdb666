// How many bytes the script of a node table's tree has, worked out with no table of its own: what each node adds to it,
// with the VERIFY of a v: left out where the opcode before it also verifies.
#![tactic(auto)]

ghost use Rattle.std.specs.Prelude.{◌≡◌, ◌+◌, ◌-◌, ◌*◌, ◌≤◌, ◌<◌, length};
ghost use Rattle.tables.specs.Tables.{newest};
ghost use Rattle.spelling.specs.Spell.{number_bytes};
ghost use Rattle.standard.specs.Tree as tree;
ghost use Rattle.standard.specs.Table.{node_at, key_length, terminal_of};
ghost use Rattle.script_length.specs.Length.{ending_of, newest_size, ends_fusible, wrapper_bytes, added_bytes, Counts, length_in};

use judge::size_at;
use lex::SCRIPT_LIMIT;
use node_shape::key_length;
use row::kind;

// What the script of a node's tree ends in: an opcode that also has a verifying form, any other, or what its first or
// second child's script ends in.
#[derive(Clone, Copy)]
pub enum Ending {
    Fusible,
    Plain,
    OfFirst,
    OfSecond,
}

// The opcodes with a verifying form are EQUAL, NUMEQUAL, CHECKSIG and CHECKMULTISIG.
#[tactic(auto, unfolding(standard::specs::Table::terminal_of))]
fn ending_of(kind: u32) -> Ending
    ensures { result ≡ ending_of (terminal_of kind) }
{
    match kind {
        kind::SHA256 | kind::HASH256 | kind::RIPEMD160 | kind::HASH160 => Ending::Fusible,
        kind::CHECK | kind::THRESH | kind::MULTI | kind::MULTI_A => Ending::Fusible,
        kind::SWAP => Ending::OfFirst,
        kind::AND_V => Ending::OfSecond,
        _ => Ending::Plain,
    }
}

// How many of the first m nodes are left under the newest tree.
fn under_newest(nodes: &[u32], m: usize) -> usize
    requires { 9 * m ≤ length nodes.now }
    ensures { result ≡ m - newest_size (newest (node_at nodes.now) m) }
{
    if m == 0 {
        return 0;
    }
    m.saturating_sub(size_at(nodes, m - 1) as usize)
}

// Whether the script of the newest tree of the first m nodes ends in an opcode that has a verifying form.
fn ends_fusible(nodes: &[u32], m: usize) -> bool
    requires { 9 * m ≤ length nodes.now }
    ensures { result ≡ ends_fusible (newest (node_at nodes.now) m) }
{
    let mut at = m;
    // No for: it goes down by a subtree's size.
    while 0 < at {
        let under = at - 1;
        match ending_of(nodes[9 * under]) {
            Ending::Fusible => return true,
            Ending::Plain => return false,
            Ending::OfFirst => at = under,
            Ending::OfSecond => at = under_newest(nodes, under),
        }
    }
    false
}

// The push of a number: 0 to 16 have opcodes, any other is pushed by its digits.
// These are the bounds of emit's digit_count, and a byte for the size; this crate doesn't stand on emit.
#[tactic(auto, unfolding(spelling::specs::Spell::number_bytes, spelling::specs::Spell::digits))]
fn number_bytes(n: u32) -> usize
    ensures { result ≡ length (number_bytes n) }
{
    match n {
        0..=16 => 1,
        17..=0x7f => 2,
        0x80..=0x7fff => 3,
        0x8000..=0x7fffff => 4,
        _ => 5,
    }
}

// A key and the byte of its length.
fn key_bytes(segwit: bool) -> usize
    ensures { Counts result (1 + key_length segwit) }
{
    1 + key_length(segwit) as usize
}

// The VERIFY of a v: over the newest tree of the first m nodes.
fn verify_bytes(nodes: &[u32], m: usize) -> usize
    requires { 9 * m ≤ length nodes.now }
    ensures { Counts result (wrapper_bytes tree.verify (ends_fusible (newest (node_at nodes.now) m))) }
{
    usize::from(!ends_fusible(nodes, m))
}

// A number and an opcode behind it.
fn lock_bytes(number: u32) -> usize
    ensures { Counts result (length (number_bytes number) + 1) }
{
    number_bytes(number) + 1
}

// k and EQUAL, and ADD behind each child but the first.
fn thresh_bytes(k: u32, n: u32) -> usize
    ensures { Counts result (n + length (number_bytes k)) }
{
    (n as usize) + number_bytes(k)
}

// k, the keys, n and CHECKMULTISIG.
fn multi_bytes(k: u32, n: u32) -> usize
    ensures { Counts result (length (number_bytes k) + 34 * n + length (number_bytes n) + 1) }
{
    number_bytes(k) + 34 * (n as usize) + number_bytes(n) + 1
}

// The keys, each with its CHECKSIG or CHECKSIGADD, and k and NUMEQUAL.
fn multi_a_bytes(k: u32, n: u32) -> usize
    ensures { Counts result (34 * n + length (number_bytes k) + 1) }
{
    34 * (n as usize) + number_bytes(k) + 1
}

// What node number i adds to the script besides its children: a table by kind, in the order of the kinds.
#[tactic(auto, unfolding(standard::specs::Table::terminal_of, crate::specs::Length::added_bytes))]
fn own_bytes(segwit: bool, nodes: &[u32], i: usize) -> usize
    requires { 9 * i + 8 < length nodes.now }
    ensures { Counts result (added_bytes segwit (node_at nodes.now i) (newest (node_at nodes.now) i)) }
{
    let number = nodes[9 * i + 1];
    let count = nodes[9 * i + 2];
    match nodes[9 * i] {
        kind::TRUE | kind::FALSE => 1,
        kind::PK_K => key_bytes(segwit),
        kind::RAW_PK_H => 24,
        kind::AFTER | kind::OLDER => lock_bytes(number),
        kind::SHA256 | kind::HASH256 => 39,
        kind::RIPEMD160 | kind::HASH160 => 27,
        kind::ALT => 2,
        kind::SWAP | kind::CHECK => 1,
        kind::DUP_IF => 3,
        kind::VERIFY => verify_bytes(nodes, i),
        kind::NON_ZERO => 4,
        kind::ZERO_NOT_EQUAL => 1,
        kind::AND_V => 0,
        kind::AND_B => 1,
        kind::AND_OR => 3,
        kind::OR_B => 1,
        kind::OR_D => 3,
        kind::OR_C => 2,
        kind::OR_I => 3,
        kind::THRESH => thresh_bytes(number, count),
        kind::MULTI => multi_bytes(number, count),
        kind::MULTI_A => multi_a_bytes(number, count),
        _ => 0,
    }
}

// How many bytes the script of a node table has, or the limit and one if they are more than a script may have. For a table that
// passes the encoder's checks this is the length of what is written for its tree (`length_of_tree`).
pub fn script_length(segwit: bool, nodes: &[u32]) -> usize
    ensures { result ≡ length_in segwit nodes.now }
{
    let mut total = 0;
    for i in 0..nodes.len() / 9 {
        total += own_bytes(segwit, nodes, i);
        if SCRIPT_LIMIT < total {
            return SCRIPT_LIMIT + 1;
        }
    }
    total
}
