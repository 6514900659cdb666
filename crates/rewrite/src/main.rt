// Rewrites scripts from their listings. Standard input is a list of jobs: a line as the program `intake` reads it (kind byte
// and script), then that line's listing as `intake` writes it (header, nodes, keys). The nodes and keys are given to the
// encoder, with the script as the bytes that keys and hashes are taken from, and with a work table and an output that are
// full of junk.
//
// For each job it writes a line: number, reason, place, how many bytes were written, and `clean` if then the work table is
// all zero and the output as it was behind those bytes, else `dirty`. An accepted job has one more line: the kind byte and
// the script written, as `intake` reads it.
//
// The work table has 4,098 entries and the output 10,000 bytes, ample for the 512 nodes and 1,000 keys that a job may have.
// Where a job's first line has three numbers more, each after a blank, they are other sizes for both and how many numbers of
// the node table lie behind the last whole node. All numbers are hexadecimal. Jobs beyond these limits are not answered.
#![tactic(auto)]

ghost use Rattle.std.specs.Prelude.{◌≤◌, ◌<◌, length, IfSome};

use encode::Encoded;
use printing::{line, short_number};

// The sizes of a work table and an output, and how many numbers lie behind the last whole node.
#[derive(Clone, Copy)]
struct Room {
    work: usize,
    out: usize,
    odd: usize,
}

// How many nodes and keys a listing has.
#[derive(Clone, Copy)]
struct Header {
    nodes: usize,
    keys: usize,
}

// A job has more nodes or keys than there is room for.
#[derive(Drop)]
struct TooLarge;

// What of the input is still to be read.
#[derive(Drop)]
struct Rest<'a> {
    text: &'a [u8],
}

impl<'a> Rest<'a> {
    // Up to the next digit.
    fn skip_to_digit(&mut self) {
        while let [first, rest @ ..] = self.text {
            if hex_line::digit(*first).is_some() {
                return;
            }
            self.text = rest;
        }
    }

    // The digit that is next, if one is.
    fn digit(&mut self) -> Option<u8>
        ensures { IfSome result (λ d. d < 16) }
    {
        let (first, rest) = self.text.split_first()?;
        let value = hex_line::digit(*first)?;
        self.text = rest;
        Some(value)
    }

    // The next number, of at most so many digits, all of which fit.
    fn number(&mut self, most: usize) -> u32 {
        self.skip_to_digit();
        let mut value = 0;
        for _ in 0..most {
            if 0x0fffffff < value {
                break;
            }
            let Some(d) = self.digit() else {
                break;
            };
            value = 16 * value + u32::from(d);
        }
        value
    }

    // The bytes of a text in hexadecimal, at the front of the material, up to the first character that is no digit; how many there are.
    // Not hex_text's, which stops at the front of a text: here the rest goes on behind it.
    fn unhex(&mut self, material: &mut [u8]) -> usize
        ensures { result ≤ length material.old }
    {
        for size in 0..material.len() {
            let [a, b, rest @ ..] = self.text else {
                return size;
            };
            let (Some(high), Some(low)) = (hex_line::digit(*a), hex_line::digit(*b)) else {
                return size;
            };
            material[size] = 16 * high + low;
            self.text = rest;
        }
        material.len()
    }

    // The three numbers behind a script, if there are any.
    fn room(&mut self) -> Room {
        if !self.text.starts_with(b" ") {
            return Room {
                work: 4098,
                out: 10000,
                odd: 0,
            };
        }
        Room {
            work: self.number(8) as usize,
            out: self.number(8) as usize,
            odd: self.number(8) as usize,
        }
    }

    // The header of a listing: of its seven numbers, the last two.
    fn header(&mut self) -> Header {
        for _ in 0..5 {
            self.number(8);
        }
        Header {
            nodes: self.number(8) as usize,
            keys: self.number(8) as usize,
        }
    }

    // The numbers of a listing's nodes. Of each node's nine, base, input, d and u have one digit and are run together.
    fn fill_nodes(&mut self, nodes: &mut [u32]) {
        for (i, cell) in nodes.iter_mut().enumerate() {
            *cell = self.number(if i % 9 < 5 { 8 } else { 1 });
        }
    }

    // The keys of a listing.
    fn fill_keys(&mut self, keys: &mut [u32]) {
        for key in keys.iter_mut() {
            *key = self.number(8);
        }
    }
}

fn show_answer(answer: Encoded, clean: bool) {
    short_number(answer.number);
    short_number(answer.reason);
    printing::size(answer.place);
    printing::size(answer.bytes);
    io::write_all(1, if clean { b"clean\n" } else { b"dirty\n" });
}

// So many bytes from the front of the output, in hexadecimal.
fn show_script(out: &[u8], size: usize) {
    for b in out.iter().take(size) {
        io::print_hex(1, u64::from(*b), 2);
    }
    line();
}

// A node table encoded, and the answer shown.
fn rewrite(
    kind: u32,
    nodes: &[u32],
    keys: &[u32],
    material: &[u8],
    work: &mut [u64],
    out: &mut [u8],
) {
    let answer = encode::encode(kind, nodes, keys, material, work, out);
    let number = answer.number;
    let bytes = answer.bytes;
    let work_is_zero = work.iter().all(|x| *x == 0);
    let rest_is_as_before = out.iter().skip(bytes).all(|b| *b == 0xaa);
    show_answer(answer, work_is_zero && rest_is_as_before);
    if number == 0 {
        io::print_hex(1, u64::from(kind), 2);
        show_script(out, bytes);
    }
}

// The same with a work table and an output of these sizes, full of junk.
fn with_room(kind: u32, nodes: &[u32], keys: &[u32], material: &[u8], work: usize, out: usize) {
    let mut work_table = [0xdeadbeefdeadbeefu64; 4098];
    let mut output = [0xaau8; 10000];
    if 4098 < work || 10000 < out {
        return;
    }
    rewrite(
        kind,
        nodes,
        keys,
        material,
        &mut work_table[..work],
        &mut output[..out],
    );
}

// One job.
fn job(input: &mut Rest) -> Result<(), TooLarge> {
    let mut material = [0u8; 520];
    let mut nodes = [0u32; 4616];
    let mut keys = [0u32; 1000];
    let kind = input.number(2);
    let size = input.unhex(&mut material);
    let room = input.room();
    let head = input.header();
    if 512 < head.nodes || 1000 < head.keys || 8 < room.odd {
        return Err(TooLarge);
    }
    let cells = 9 * head.nodes;
    input.fill_nodes(&mut nodes[..cells]);
    input.fill_keys(&mut keys[..head.keys]);
    with_room(
        kind,
        &nodes[..cells + room.odd],
        &keys[..head.keys],
        &material[..size],
        room.work,
        room.out,
    );
    Ok(())
}

// Job after job, to the input's end or one that is too large. There are no more jobs than bytes.
fn jobs(text: &[u8]) -> Result<(), TooLarge> {
    let mut input = Rest { text };
    for _ in 0..text.len() {
        input.skip_to_digit();
        if input.text.is_empty() {
            break;
        }
        job(&mut input)?;
    }
    Ok(())
}

fn main() {
    let mut input = [0u8; 262144];
    let n = io::read_full(0, &mut input);
    let _ = jobs(&input[..n]);
}
