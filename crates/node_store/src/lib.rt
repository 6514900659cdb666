// The writing part of a step of decode.rs: a node at the end of the node table, and a multi's keys at the end of the key
// table. That there is room for them is tested by the caller.
#![tactic(auto)]

ghost use Rattle.std.specs.Prelude.{◌≡◌, ◌+◌, ◌*◌, ◌≤◌, ◌<◌, length};
ghost use Rattle.tables.specs.Tables.{put_at};
ghost use Rattle.standard.specs.Table.{cells};
ghost use Rattle.row.specs.Request.{offsets_from};
ghost use Rattle.judge.specs.NodeTable.{node_of};
ghost use Rattle.node_store.specs.Offsets.{offset_at, Low};

use judge::Node;

// Node number m: nine numbers, in 01's order.
pub fn put(nodes: &mut [u32], m: usize, x: Node)
    requires { 9 * m + 8 < length nodes.old }
    ensures { nodes.new ≡ put_at nodes.old (9 * m) (cells (node_of x)) }
{
    let i = 9 * m;
    nodes[i..i + 9].copy_from_slice(&[
        x.kind, x.number, x.count, x.place, x.size, x.base, x.input, x.d, x.u,
    ]);
}

// Where the data starts that token number i pushes: one byte behind its instruction. A token that isn't in the table has
// place 0: the rows hand on tokens that are there, and no caller has to show it.
fn offset_at(tokens: &[u32], i: usize) -> u32
    requires { Low tokens.now }
    ensures { result ≡ offset_at tokens.now i }
{
    if tokens.len() / 3 <= i {
        return 1;
    }
    tokens[3 * i + 2] + 1
}

// The tokens that push a multi's keys: from the token `first` on, a stride apart.
#[derive(Clone, Copy)]
pub struct KeyTokens {
    pub first: usize,
    pub stride: usize,
}

// The offsets of what n of these tokens push.
pub fn copy_keys(tokens: &[u32], keys: &mut [u32], from: usize, n: usize, pushed: KeyTokens)
    requires { (from + n ≤ length keys.old) × Low tokens.now }
    ensures { keys.new ≡ put_at keys.old from (offsets_from tokens.now n pushed.first pushed.stride) }
{
    let mut at = pushed.first;
    for i in 0..n {
        keys[from + i] = offset_at(tokens, at);
        // The caller bounds no stride: a sum past the last number is cut, and lies behind the table all the same.
        at = at.saturating_add(pushed.stride);
    }
}
