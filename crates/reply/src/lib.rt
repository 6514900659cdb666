// What a line of the program's input is answered with, once it has ended: document 01, section "Program".
//
// What a line means is proved in `hex_line`, what a script is read to in `decode`, the bytes of a listing in `listing`. Here they meet: the
// header that is answered and the tables that are left lay out as exactly the text that Program.antt says.
#![tactic(auto)]

ghost use Rattle.std.specs.Prelude.{◌≡◌, ◌%◌};
ghost use Rattle.listing.specs.Listing.{listing};
ghost use Rattle.hex_line.specs.Feeding.{fed, told_of};
ghost use Rattle.reply.specs.Program.{refusal_of, text_of};
ghost use Rattle.reply.specs.Narrow.{narrowed};

use decode::Answer;
use hex_line::Line;
use listing::Header;

// What the reader is lent: 1,040 tokens of three numbers, 512 nodes of nine, 128 keys and 1,024 work entries. The script
// isn't in it: `answer` is lent it shared, which says that it stays as it was.
#[derive(Drop)]
pub struct Tables {
    pub tokens: [u32; 3120],
    pub nodes: [u32; 4608],
    pub keys: [u32; 128],
    pub work: [u64; 1024],
}

// The header of a line that is refused before it is read.
fn refused(number: u32) -> Header
    ensures { result ≡ refusal_of number }
{
    Header {
        number,
        ..Header::default()
    }
}

// A cast may lose no bits, so those that don't fit are taken off before it.
fn narrow(x: usize) -> u32
    ensures { result ≡ x % 4294967296 }
{
    (x % 4294967296) as u32
}

// The header of what the reader answers. A listing has eight digits for a number, so nothing is lost here.
// No From: both types are other crates'.
fn answered(a: Answer) -> Header
    ensures { result ≡ narrowed a }
{
    Header {
        number: a.number,
        reason: a.reason,
        place: narrow(a.place),
        tokens: narrow(a.tokens),
        steps: narrow(a.steps),
        nodes: narrow(a.nodes),
        keys: narrow(a.keys),
    }
}

// A line has ended: it is refused, or its script is read. The header is answered; the nodes and keys of its listing are in the tables.
pub fn answer(line: Line, script: &[u8; 520], tables: &mut Tables) -> Header
    ensures { listing result tables.new.nodes tables.new.keys ≡ text_of (told_of (fed line script.now)) }
{
    match hex_line::end(line) {
        Err(refusal) => refused(refusal.number()),
        Ok(to_read) => answered(decode::read(
            to_read.kind,
            &script[..to_read.size],
            &mut tables.tokens,
            &mut tables.nodes,
            &mut tables.keys,
            &mut tables.work,
        )),
    }
}
