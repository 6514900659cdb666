// The encoder's writing pass, over a node table that has passed its checks: one run from the last node to the first, with a
// work list of the pieces still to be written.
#![tactic(auto)]

ghost use Rattle.std.specs.Prelude.{◌≡◌, ◌++◌, ◌-◌, ◌%◌, length, drop, get_or};
ghost use Rattle.encoding.specs.Encoding.{tree_in};
ghost use Rattle.write_script.specs.Writing.{bytes_of, Writable};
ghost use Rattle.write_script.specs.Pass.{Going, Keeps};

use emit::Pen;
use encoding::Source;
use row::kind;

// How far the pass has come: so many pieces still to be written, so many nodes still to be taken, and the pen.
#[derive(Clone, Copy)]
pub struct State {
    pub work: usize,
    pub left: usize,
    pub pen: Pen,
}

// A subtree taken off the work list: the next node's pieces are entered, or a multi or multi_a is written at once.
fn take_node(source: Source, work: &mut [u64], out: &mut [u8], s: State) -> State
    requires going { Going source.segwit source.nodes.now source.keys.now source.material.now work.old out.old s }
    requires work_value { get_or work.old (s.work - 1) 0 % 64 ≡ 33 }
    ensures { Keeps source.entry.segwit source.entry.nodes.now source.entry.keys.now source.entry.material.now work.old out.old s work.new out.new result }
{
    let Source {
        segwit,
        nodes,
        keys,
        material,
    } = source;
    let w = s.work - 1;
    let i = s.left - 1;
    let number = nodes[9 * i + 1];
    let count = nodes[9 * i + 2] as usize;
    let place = nodes[9 * i + 3];
    let first = place as usize;
    let kind = nodes[9 * i];
    match kind {
        kind::THRESH => State {
            work: pieces::enter_thresh(work, w, count - 1, number, place),
            left: i,
            ..s
        },
        kind::MULTI => State {
            work: w,
            left: i,
            pen: emit_multi::emit_multi(keys, material, out, s.pen, number, first, count),
        },
        kind::MULTI_A => State {
            work: w,
            left: i,
            pen: emit_multi::emit_multi_a(keys, material, out, s.pen, number, first, count - 1),
        },
        _ => State {
            work: pieces::enter(work, w, pieces::template(segwit, kind), number, place),
            left: i,
            ..s
        },
    }
}

// One piece taken off the work list. A lexeme is written.
fn step(source: Source, work: &mut [u64], out: &mut [u8], s: State) -> State
    requires { Going source.segwit source.nodes.now source.keys.now source.material.now work.old out.old s }
    ensures { Keeps source.entry.segwit source.entry.nodes.now source.entry.keys.now source.entry.material.now work.old out.old s work.new out.new result }
{
    let w = s.work - 1;
    let piece = work[w];
    if piece % 64 == u64::from(pieces::SUBTREE) {
        return take_node(source, work, out, s);
    }
    State {
        work: w,
        pen: pieces::emit_piece(out, s.pen, source.material, piece),
        ..s
    }
}

// Writes the script of the tree that a node table holds at the front of the output, and answers how many bytes it has.
pub fn write_script(source: Source, work: &mut [u64], out: &mut [u8]) -> usize
    requires { Writable source.segwit source.nodes.now source.keys.now source.material.now (length work.old) (length out.old) }
    ensures { (out.new ≡ bytes_of (tree_in source.entry.segwit source.entry.nodes.now source.entry.keys.now source.entry.material.now) ++ drop (length (bytes_of (tree_in source.entry.segwit source.entry.nodes.now source.entry.keys.now source.entry.material.now))) out.old) × (result ≡ length (bytes_of (tree_in source.entry.segwit source.entry.nodes.now source.entry.keys.now source.entry.material.now))) }
{
    work[0] = u64::from(pieces::SUBTREE);
    let mut s = State {
        work: 1,
        left: source.nodes.len() / 9,
        pen: Pen { at: 0, last: 0 },
    };
    // No for: it goes on until no piece is left.
    while 0 < s.work {
        s = step(source, work, out, s);
    }
    s.pen.at
}
