// The entries for callers in C and Rust, under plain names with the prefix `phagdrulis_`: numbers and slices in, one struct that both
// sides lay out the same out. To such a caller a slice is a pointer and a length (include/phagdrulis.h). No entry asks anything of its
// arguments: the pointers and lengths themselves are all that a caller can get wrong.
#![tactic(auto)]

ghost use Rattle.std.specs.Prelude.{◌≡◌, length};
ghost use Rattle.lex.specs.Room.{room_of};
ghost use Rattle.standard.specs.Outcome.{outcome_of};
ghost use Rattle.decode.specs.Read as decoded;
ghost use Rattle.decode.specs.Read.{lengths_of};
ghost use Rattle.encoding.specs.Encoding.{encoding_of};
ghost use Rattle.encode.specs.Encode as encoded;
ghost use Rattle.leaf_part.specs.LeafPart.{leaf_part};
ghost use Rattle.exports.specs.Answers.{answer_of, outcome_at, room_in, Lexes};
ghost use Rattle.exports.specs.Encodings.{encoded_answer, encoded_at, part_in};

// What `phagdrulis_read` answers: document 01's number and reason, 0 where it accepts; the place; and how many tokens, steps, nodes
// and keys there are. A struct of its own beside decode's, as `Encoded` is beside encode's: the C interface has it under this name.
#[repr(C)]
#[derive(Clone, Copy)]
pub struct Answer {
    pub number: u32,
    pub reason: u32,
    pub place: usize,
    pub tokens: usize,
    pub steps: usize,
    pub nodes: usize,
    pub keys: usize,
}

// What `phagdrulis_lex` answers: document 01's number and place, 0 where it accepts; and how many tokens there are.
#[repr(C)]
#[derive(Clone, Copy)]
pub struct Lexed {
    pub number: u32,
    pub place: usize,
    pub tokens: usize,
}

// What `phagdrulis_room` answers: document 01's number and place, 0 where the script lexes; and the sizes that are ample for it, in
// entries of each table.
#[repr(C)]
#[derive(Clone, Copy)]
pub struct Room {
    pub number: u32,
    pub place: usize,
    pub tokens: usize,
    pub nodes: usize,
    pub keys: usize,
    pub work: usize,
}

// What `phagdrulis_encode` answers: document 01's number and reason, 0 where it accepts; the place, which is always 0; and how many
// bytes it wrote.
#[repr(C)]
#[derive(Clone, Copy)]
pub struct Encoded {
    pub number: u32,
    pub reason: u32,
    pub place: usize,
    pub bytes: usize,
}

// What `phagdrulis_leaf_part` answers: where in the script the part starts, and how many bytes it has; both 0 where there is none.
#[repr(C)]
#[derive(Clone, Copy)]
pub struct Part {
    pub start: usize,
    pub bytes: usize,
}

impl From<decode::Answer> for Answer {
    ghost from_gives = { λ a r. answer_of r ≡ decoded.answer_of a };

    fn from(a: decode::Answer) -> Answer {
        Answer {
            number: a.number,
            reason: a.reason,
            place: a.place,
            tokens: a.tokens,
            steps: a.steps,
            nodes: a.nodes,
            keys: a.keys,
        }
    }
}

// Reads a script: its kind (0 segwit, 1 tapscript), its bytes, and four lent tables in; the answer out. The tables end as document 01
// has them, whatever they held before.
#[unsafe(no_mangle)]
pub extern "C" fn phagdrulis_read(
    kind: u32,
    script: &[u8],
    tokens: &mut [u32],
    nodes: &mut [u32],
    keys: &mut [u32],
    work: &mut [u64],
) -> Answer
    ensures { outcome_at result tokens.new nodes.new keys.new work.new ≡ outcome_of kind script.now (lengths_of tokens.old nodes.old keys.old work.old) }
{
    Answer::from(decode::read(kind, script, tokens, nodes, keys, work))
}

// The tokens of a script, three numbers each, at the front of a table and zeros behind; zeros throughout after a refusal.
#[unsafe(no_mangle)]
pub extern "C" fn phagdrulis_lex(script: &[u8], tokens: &mut [u32]) -> Lexed
    ensures { Lexes script.now (length tokens.old) result tokens.new }
{
    match lex::lex(script, tokens) {
        Ok(count) => Lexed {
            number: 0,
            place: 0,
            tokens: count,
        },
        Err(lex::Refused { number, place }) => Lexed {
            number,
            place,
            tokens: 0,
        },
    }
}

// The sizes of tables that are ample for a script, by one scan without any table.
#[unsafe(no_mangle)]
pub extern "C" fn phagdrulis_room(script: &[u8]) -> Room
    ensures { result ≡ room_in (room_of script.now) }
{
    match lex::room(script) {
        Ok(sizes) => Room {
            number: 0,
            place: 0,
            tokens: sizes.tokens,
            nodes: sizes.nodes,
            keys: sizes.keys,
            work: sizes.work,
        },
        Err(lex::Refused { number, place }) => Room {
            number,
            place,
            tokens: 0,
            nodes: 0,
            keys: 0,
            work: 0,
        },
    }
}

impl From<encode::Encoded> for Encoded {
    ghost from_gives = { λ e r. encoded_answer r ≡ encoded.answer_of e };

    fn from(e: encode::Encoded) -> Encoded {
        Encoded {
            number: e.number,
            reason: e.reason,
            place: e.place,
            bytes: e.bytes,
        }
    }
}

// Writes the script of the tree that a node table holds: its kind (0 segwit, 1 tapscript), the nodes, the key table, the bytes that keys
// and hashes are taken from, a work table and the output in; the answer out.
#[unsafe(no_mangle)]
pub extern "C" fn phagdrulis_encode(
    kind: u32,
    nodes: &[u32],
    keys: &[u32],
    material: &[u8],
    work: &mut [u64],
    out: &mut [u8],
) -> Encoded
    ensures { encoded_at result out.new work.new ≡ encoding_of kind nodes.now keys.now material.now (length work.old) out.old }
{
    Encoded::from(encode::encode(kind, nodes, keys, material, work, out))
}

// Where in the script a node's key or hash lies: the script's kind and bytes, the node's kind and place in; the part out.
#[unsafe(no_mangle)]
pub extern "C" fn phagdrulis_leaf_part(kind: u32, script: &[u8], node: u32, place: u32) -> Part
    ensures { result ≡ part_in place (leaf_part kind script.now node place) }
{
    let part = leaf_part::leaf_part(kind, script, node, place);
    let bytes = part.len();
    if bytes == 0 {
        return Part { start: 0, bytes: 0 };
    }
    Part {
        start: place as usize,
        bytes,
    }
}
