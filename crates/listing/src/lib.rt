// The listing that the program writes for a script, line by line into a lent output: document 01, section "Program".
//
// By hand and not by `write!`, since the contracts say each byte. The output is lent beside its place: a struct that held both would need a
// clause more in each contract, that it is still the same output.
#![tactic(auto)]

ghost use Rattle.std.specs.Prelude.{◌≡◌, [], ◌∷◌, ◌++◌, leb, length, get_or, ◌+◌, ◌*◌, ◌%◌, ◌≤◌, ◌<◌};
ghost use Rattle.listing.specs.Digits.{glyph as Digits·glyph, digits};
ghost use Rattle.listing.specs.Lines.{SPACE, LINE_FEED, header_line, node_field, type_word, node_line, key_line};
ghost use Rattle.listing.specs.Output.{write, put, puts};
ghost use Rattle.listing.specs.Listing.{line_at};

// What the reader answers about a script, as the first line of its listing has it.
#[derive(Clone, Copy, Default)]
pub struct Header {
    pub number: u32,
    pub reason: u32,
    pub place: u32,
    pub tokens: u32,
    pub steps: u32,
    pub nodes: u32,
    pub keys: u32,
}

// How many bytes the three lines have.
pub const HEADER_BYTES: usize = 51;

pub const NODE_BYTES: usize = 44;

pub const KEY_BYTES: usize = 9;

// The digit of a number below 16, in lower case.
fn glyph(d: u32) -> u8
    requires { d < 16 }
    ensures { result ≡ Digits·glyph d }
{
    if d < 10 {
        (48 + d) as u8
    } else {
        (87 + d) as u8
    }
}

// A number in so many digits. The last digit is written first, since it is the first that division gives.
fn put_digits(out: &mut [u8], at: usize, width: usize, n: u32) -> usize
    requires { at + width ≤ length out.old }
    ensures { (result ≡ at + width) × (out.new ≡ write out.old at (digits width n)) }
{
    let mut rest = n;
    for left in (0..width).rev() {
        out[at + left] = glyph(rest % 16);
        rest /= 16;
    }
    at + width
}

// A number in so many digits, and the byte after them.
fn put_word(out: &mut [u8], at: usize, width: usize, n: u32, after: u8) -> usize
    requires { at + width + 1 ≤ length out.old }
    ensures { (result ≡ at + width + 1) × (out.new ≡ write out.old at (digits width n ++ (after ∷ []))) }
{
    let end = put_digits(out, at, width, n);
    out[end] = after;
    end + 1
}

// Whether so many bytes fit behind `at` in an output of so many bytes.
fn has_room(size: usize, at: usize, bytes: usize) -> bool
    ensures { result ≡ leb (at + bytes) size }
{
    bytes <= size && at <= size - bytes
}

// The first line of a listing, at `at`. Answers where it ends; if there is no room, nothing is written.
pub fn put_header(out: &mut [u8], at: usize, h: Header) -> Option<usize>
    ensures { put out.new result ≡ puts out.old at (header_line h) }
{
    if !has_room(out.len(), at, HEADER_BYTES) {
        return None;
    }
    let reason = put_word(out, at, 2, h.number, b' ');
    let place = put_word(out, reason, 2, h.reason, b' ');
    let tokens = put_word(out, place, 8, h.place, b' ');
    let steps = put_word(out, tokens, 8, h.tokens, b' ');
    let nodes = put_word(out, steps, 8, h.steps, b' ');
    let keys = put_word(out, nodes, 8, h.nodes, b' ');
    Some(put_word(out, keys, 8, h.keys, b'\n'))
}

// A cell of a table, and 0 behind its end.
fn cell(table: &[u32], i: usize) -> u32
    ensures { result ≡ get_or table.now i 0 }
{
    table.get(i).copied().unwrap_or(0)
}

// Number j of node i.
fn field(nodes: &[u32], i: u32, j: usize) -> u32
    requires { j < 9 }
    ensures { result ≡ node_field nodes.now i j }
{
    cell(nodes, 9 * (i as usize) + j)
}

// The end of a node's line: base, input, d and u run together, and the line feed.
fn put_type(out: &mut [u8], at: usize, nodes: &[u32], i: u32) -> usize
    requires { at + 5 ≤ length out.old }
    ensures { (result ≡ at + 5) × (out.new ≡ write out.old at (type_word nodes.now i ++ (LINE_FEED ∷ []))) }
{
    let input = put_digits(out, at, 1, field(nodes, i, 5));
    let d = put_digits(out, input, 1, field(nodes, i, 6));
    let u = put_digits(out, d, 1, field(nodes, i, 7));
    put_word(out, u, 1, field(nodes, i, 8), b'\n')
}

// The line of node i, at `at`. Answers where it ends; if there is no room, nothing is written.
pub fn put_node(out: &mut [u8], at: usize, nodes: &[u32], i: u32) -> Option<usize>
    ensures { put out.new result ≡ puts out.old at (node_line nodes.now i) }
{
    if !has_room(out.len(), at, NODE_BYTES) {
        return None;
    }
    let number = put_word(out, at, 2, field(nodes, i, 0), b' ');
    let count = put_word(out, number, 8, field(nodes, i, 1), b' ');
    let place = put_word(out, count, 8, field(nodes, i, 2), b' ');
    let size = put_word(out, place, 8, field(nodes, i, 3), b' ');
    let base = put_word(out, size, 8, field(nodes, i, 4), b' ');
    Some(put_type(out, base, nodes, i))
}

// The line of key i, at `at`. Answers where it ends; if there is no room, nothing is written.
pub fn put_key(out: &mut [u8], at: usize, keys: &[u32], i: usize) -> Option<usize>
    ensures { put out.new result ≡ puts out.old at (key_line keys.now i) }
{
    if !has_room(out.len(), at, KEY_BYTES) {
        return None;
    }
    Some(put_word(out, at, 8, cell(keys, i), b'\n'))
}

// Line k of a listing, at `at`: 0 is the header, then come the nodes, then the keys. Answers as the lines do.
// By a number and no closure: the clerk keeps it while it writes, and goes on there.
pub fn put_line(
    out: &mut [u8],
    at: usize,
    h: Header,
    nodes: &[u32],
    keys: &[u32],
    k: usize,
) -> Option<usize>
    ensures { put out.new result ≡ puts out.old at (line_at h nodes.now keys.now k) }
{
    let count = h.nodes as usize;
    if k == 0 {
        put_header(out, at, h)
    } else if k <= count {
        put_node(out, at, nodes, (k - 1) as u32)
    } else {
        put_key(out, at, keys, k - 1 - count)
    }
}
