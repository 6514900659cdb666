// What the desk does between a read and a write: bytes of the input in, text for the output out (document 01, section "Program").
//
// No function here makes a system call. A caller reads some bytes of the input, has them taken by `receive`, and then calls `turn` and
// writes what it laid out, again and again until a turn lays out nothing. What a write took is crossed off by `written`, and by nothing else;
// no turn is taken while bytes of the one before it wait. The contracts settle the rest: what is laid out, turn after turn, is what
// Program.antt says of the whole input, however it came cut into parts (ProgramLaws), and the line that a part leaves open goes on with the
// next.
#![tactic(auto)]

ghost use Rattle.std.specs.Prelude.{◌≡◌, List, ◌++◌, ℕ, ◌-◌, ◌≤◌, ◌<◌, length, take, drop};
ghost use Rattle.hex_line.specs.Feeding.{fed, told_in, left_by};
ghost use Rattle.reply.specs.Program.{texts_of};
ghost use Rattle.clerk.specs.Owed.{line_count, rest_of, owed, leaves, due, started, laid, Ready, Answered, Says};

use calls::Wrote;
use hex_line::Line;
use listing::Header;
use reply::Tables;

// What the clerk has in hand while a part of the input is answered.
#[derive(Clone, Copy)]
pub struct Hand {
    // How far the line at hand has been read.
    pub line: Line,
    // How many bytes of the part have been read.
    pub at: usize,
    // The listing that is being laid out.
    pub header: Header,
    // The first of its lines that is not laid out yet.
    pub next: usize,
    // How many of the bytes that the last turn laid out, at the front of the output, are not written yet.
    pub used: usize,
}

// How many lines a listing has.
fn count_lines(h: Header) -> usize
    ensures { result ≡ line_count h }
{
    1 + h.nodes as usize + h.keys as usize
}

// The same hand, further along its listing.
fn moved(hand: Hand, next: usize, used: usize) -> Hand
    ensures { result ≡ laid hand next used }
{
    Hand { next, used, ..hand }
}

// The lines of the listing at hand, behind the first `used` bytes of the output, until all of them are there or the next doesn't fit.
fn lay_out(
    hand: Hand,
    used: usize,
    nodes: &[u32; 4608],
    keys: &[u32; 128],
    out: &mut [u8; 8192],
) -> Hand
    requires { used ≤ 8192 }
    ensures { (result ≡ laid hand result.next result.used) × (result.used ≤ 8192) × (result.used ≡ 0 → line_count hand.header ≤ result.next) × (take result.used out.new ++ rest_of hand.header result.next nodes.now keys.now ≡ take used out.old ++ rest_of hand.header hand.next nodes.now keys.now) }
{
    let lines = count_lines(hand.header);
    let mut end = used;
    for next in hand.next..lines {
        let Some(more) = listing::put_line(out, end, hand.header, nodes, keys, next) else {
            return moved(hand, next, end);
        };
        end = more;
    }
    moved(hand, hand.next.max(lines), end)
}

// Whether the next line of the input can be taken.
fn is_ready(hand: Hand, n: usize) -> bool
    ensures { Says result (Ready hand n) }
{
    count_lines(hand.header) <= hand.next && hand.at < n
}

// The line at hand, up to its line feed or the end of the part. If it ends, its listing is the one to be laid out now.
fn take_line(hand: Hand, part: &[u8], script: &mut [u8; 520], tables: &mut Tables) -> Hand
    requires { Ready hand (length part.now) }
    ensures { (hand.at < result.at) × (result.at ≤ length part.now) × (leaves result part.now script.new ≡ leaves hand part.now script.old) × (owed result part.now script.new tables.new.nodes tables.new.keys ≡ texts_of (told_in (fed hand.line script.old) (drop hand.at part.now))) }
{
    let stop = hex_line::feed_line(hand.line, part, hand.at, script);
    if part.len() <= stop.at {
        return Hand {
            line: stop.line,
            at: part.len(),
            used: 0,
            ..hand
        };
    }
    Hand {
        line: Line::Nothing,
        at: stop.at + 1,
        header: reply::answer(stop.line, script, tables),
        next: 0,
        used: 0,
    }
}

// Lays out as much as fits of what is owed for a part of the input. A turn that lays out nothing owes nothing any more.
pub fn turn(
    hand: Hand,
    part: &[u8],
    script: &mut [u8; 520],
    tables: &mut Tables,
    out: &mut [u8; 8192],
) -> Hand
    requires { (hand.at ≤ length part.now) × (hand.used ≡ 0) }
    ensures { (result.at ≤ length part.now) × (result.used ≤ 8192) × (result.used ≡ 0 → Answered result (length part.now)) × (leaves result part.now script.new ≡ leaves hand part.now script.old) × (take result.used out.new ++ owed result part.now script.new tables.new.nodes tables.new.keys ≡ owed hand part.now script.old tables.old.nodes tables.old.keys) }
{
    let mut held = lay_out(hand, 0, &tables.nodes, &tables.keys, out);
    // No for: it goes on until the output is full or nothing is owed.
    while is_ready(held, part.len()) {
        let used = held.used;
        let taken = take_line(held, part, script, tables);
        held = lay_out(taken, used, &tables.nodes, &tables.keys, out);
    }
    held
}

// The same hand, after a write took so many more of the bytes that wait at the front of the output.
pub fn written(hand: Hand, wrote: Wrote) -> Hand
    requires { wrote.n ≤ hand.used }
    ensures { result ≡ laid hand hand.next (hand.used - wrote.n) }
{
    moved(hand, hand.next, hand.used - wrote.taken())
}

// Nothing of a part read, and nothing to be laid out yet.
fn start(line: Line) -> Hand
    ensures { result ≡ started line }
{
    Hand {
        line,
        at: 0,
        header: Header::default(),
        next: 1,
        used: 0,
    }
}

// A part of the input has come, of n bytes, while a line was open. None says that the input has ended: bytes after the last line feed are a
// line then, and nothing there is none.
pub fn receive(line: Line, n: usize, script: &[u8; 520], tables: &mut Tables) -> Hand
    ensures { (result.at ≡ 0) × (result.used ≡ 0) × ((part : List ℕ) → length part ≡ n → (owed result part script.now tables.new.nodes tables.new.keys ≡ due (fed line script.now) part) × (0 < n → leaves result part script.now ≡ left_by (fed line script.now) part)) }
{
    if n > 0 || hex_line::is_nothing(line) {
        return start(line);
    }
    Hand {
        line,
        at: 0,
        header: reply::answer(line, script, tables),
        next: 0,
        used: 0,
    }
}
