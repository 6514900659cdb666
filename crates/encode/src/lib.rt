// The encoder: from a node table back to the script (document 01, section "Encoder"). All is decided before anything is
// written: the checks (crate `closing`), the length (crate `script_length`), the room. Then one pass writes the bytes
// (crate `write_script`).
#![tactic(auto)]

ghost use Rattle.std.specs.Prelude.{◌≡◌, ◌<◌, eqb, length};
ghost use Rattle.encoding.specs.Encoding.{encoding_of};
ghost use Rattle.encode.specs.Encode.{answer, answer_of, outcome_at};
ghost use Rattle.encode.specs.declared.Refusal.TheVariants.{Unsound};
ghost use Rattle.encode.specs.Decided.{refusal_answer, room_told, room_refusal, Decides};

use closing::check_tree;
use encoding::Source;
use script_length::script_length;
use tables::clear_work;
use write_script::write_script;

// What the encoder answers: document 01's number and reason, 0 where it accepts; the place, which is always 0; and how
// many bytes it wrote.
#[repr(C)]
#[derive(Clone, Copy)]
pub struct Encoded {
    pub number: u32,
    pub reason: u32,
    pub place: usize,
    pub bytes: usize,
}

// Why nothing is written.
#[derive(Clone, Copy)]
enum Refusal {
    // 20.
    ScriptKind,
    // 21, 11 to 14, 19.
    Unsound(closing::Refusal),
    // More than 10,000 bytes: 1.
    TooLong,
    // Too little work: 17.
    NoWork,
    // Too small an output: 22.
    NoRoom,
}

impl Refusal {
    fn number(self) -> u32
        ensures { result ≡ (refusal_answer self).number }
    {
        match self {
            Refusal::ScriptKind => 20,
            Refusal::Unsound(refusal) => refusal.number(),
            Refusal::TooLong => 1,
            Refusal::NoWork => 17,
            Refusal::NoRoom => 22,
        }
    }

    fn reason(self) -> u32
        ensures { result ≡ (refusal_answer self).reason }
    {
        match self {
            Refusal::Unsound(refusal) => refusal.reason(),
            _ => 0,
        }
    }
}

impl From<closing::Refusal> for Refusal {
    ghost from_gives = { λ e r. r ≡ Unsound e };

    fn from(refusal: closing::Refusal) -> Refusal {
        Refusal::Unsound(refusal)
    }
}

fn answered(number: u32, reason: u32, bytes: usize) -> Encoded
    ensures { answer_of result ≡ answer number reason bytes }
{
    Encoded {
        number,
        reason,
        place: 0,
        bytes,
    }
}

// More than 10,000 bytes are 1, then too little work is 17, then too small an output is 22.
fn check_room(nodes: usize, bytes: usize, work: usize, out: usize) -> Result<(), Refusal>
    requires { nodes < 1152921504606846976 }
    ensures { room_told result ≡ answer (room_refusal nodes bytes work out) 0 0 }
{
    if lex::SCRIPT_LIMIT < bytes {
        return Err(Refusal::TooLong);
    }
    if work < 8 * nodes + 2 {
        return Err(Refusal::NoWork);
    }
    if out < bytes {
        return Err(Refusal::NoRoom);
    }
    Ok(())
}

// How many bytes are to be written, decided with nothing written: by the script kind, by the checks of the nodes, then by
// the length and the room.
fn decide(kind: u32, source: Source, work: usize, out: usize) -> Result<usize, Refusal>
    requires { source.segwit ≡ eqb kind 0 }
    ensures { Decides kind source.entry.nodes.now source.entry.keys.now source.entry.material.now work out result }
{
    if 1 < kind {
        return Err(Refusal::ScriptKind);
    }
    check_tree(source)?;
    let bytes = script_length(source.segwit, source.nodes);
    check_room(source.nodes.len() / 9, bytes, work, out)?;
    Ok(bytes)
}

// Writes the script of the tree that the node table holds: its kind (0 segwit, 1 tapscript), the nodes, the key table, the
// bytes that keys and hashes are taken from, a work table and the output in; the answer out. The output's front and the
// work table end as document 01 has them; refused, the output is untouched.
pub fn encode(
    kind: u32,
    nodes: &[u32],
    keys: &[u32],
    material: &[u8],
    work: &mut [u64],
    out: &mut [u8],
) -> Encoded
    ensures { outcome_at result out.new work.new ≡ encoding_of kind nodes.now keys.now material.now (length work.old) out.old }
{
    let source = Source {
        segwit: kind == 0,
        nodes,
        keys,
        material,
    };
    let bytes = match decide(kind, source, work.len(), out.len()) {
        Ok(bytes) => bytes,
        Err(refusal) => {
            clear_work(work);
            return answered(refusal.number(), refusal.reason(), 0);
        }
    };
    write_script(source, work, out);
    clear_work(work);
    answered(0, 0, bytes)
}
