// The judging part of a step of decode.rs: the node that a reduction makes of its children, or the reason of 14. The
// children are the newest finished subtrees of the node table, found by `size`; types are read from their fields, judged
// by the rule of the new node's kind, and the node is returned by value. Nothing is written here. Kinds are numbers, as
// document 01 has them, and the table is flat: callers in C lend it. The names are row's, which this crate doesn't stand on.
#![tactic(auto)]

ghost use Rattle.std.specs.Prelude.{◌≡◌, ◌+◌, ◌*◌, ◌<◌, length};
ghost use Rattle.tables.specs.Tables.{newest};
ghost use Rattle.correctness.specs.Reasons as reasons;
ghost use Rattle.standard.specs.Table as standard;
ghost use Rattle.judge.specs.Nodes.{held_type, leaf_of, new_leaf, cast_of, combination_of, reduce_one, reduce_two, reduce_three, reduce_many};
ghost use Rattle.judge.specs.NodeTable.{node_at, size_at, Finished, node_of, making_of};

use correctness::{Base, Correctness, ErrorKind, Input, Leaf};

// A node before it is put into the table: 01's nine numbers. Laid out as in C, for callers who lend a table of such records.
#[repr(C)]
#[derive(Clone, Copy, Default)]
pub struct Node {
    pub kind: u32,
    pub number: u32,
    pub count: u32,
    pub place: u32,
    pub size: u32,
    pub base: u32,
    pub input: u32,
    pub d: u32,
    pub u: u32,
}

// A node of this type; "a yes is 1".
fn typed(kind: u32, number: u32, count: u32, place: u32, size: u32, ty: Correctness) -> Node
    ensures { node_of result ≡ standard.node kind number count place size (Ok ty) }
{
    Node {
        kind,
        number,
        count,
        place,
        size,
        base: ty.base.number(),
        input: ty.input.number(),
        d: u32::from(ty.dissatisfiable),
        u: u32::from(ty.unit),
    }
}

// A kind without a child, by what type it has; the four hashes are 8 to 11.
#[tactic(auto, unfolding(crate::specs::Nodes::leaf_of))]
pub fn leaf_of(kind: u32) -> Leaf
    ensures { result ≡ leaf_of kind }
{
    match kind {
        1 => Leaf::True,
        2 => Leaf::False,
        3 => Leaf::PkK,
        5 => Leaf::RawPkH,
        6 | 7 => Leaf::Time,
        27 => Leaf::Multi,
        28 => Leaf::MultiA,
        _ => Leaf::Hash,
    }
}

// A leaf: its locktime or k, how many keys it has, and its place.
pub fn leaf(kind: u32, number: u32, count: u32, place: u32) -> Node
    ensures { node_of result ≡ new_leaf kind number count place }
{
    let ty = Correctness::leaf_type(leaf_of(kind));
    typed(kind, number, count, place, 1, ty)
}

// The type of node number i.
pub fn type_at(nodes: &[u32], i: usize) -> Correctness
    requires { 9 * i + 8 < length nodes.now }
    ensures { result ≡ held_type (node_at nodes.now i) }
{
    let at = 9 * i;
    let base = Base::of_number(nodes[at + 5]);
    let input = Input::of_number(nodes[at + 6]);
    Correctness {
        base,
        input,
        dissatisfiable: nodes[at + 7] == 1,
        unit: nodes[at + 8] == 1,
    }
}

// The size of the subtree whose root is node number i.
pub fn size_at(nodes: &[u32], i: usize) -> u32
    requires { 9 * i + 8 < length nodes.now }
    ensures { result ≡ size_at nodes.now i }
{
    nodes[9 * i + 4]
}

// The rule of a kind with one child, in place of the closure that decode.rs gives to its `reduce1`. n: is 18.
#[tactic(auto, unfolding(crate::specs::Nodes::cast_of))]
pub fn cast(kind: u32, x: Correctness) -> Result<Correctness, ErrorKind>
    ensures { result ≡ cast_of kind x }
{
    match kind {
        12 => x.cast_alt(),
        13 => x.cast_swap(),
        14 => x.cast_check(),
        15 => x.cast_dupif(),
        16 => x.cast_verify(),
        17 => x.cast_nonzero(),
        _ => x.cast_zeronotequal(),
    }
}

// The rule of a kind with two children. or_i is 25.
#[tactic(auto, unfolding(crate::specs::Nodes::combination_of))]
pub fn combine(kind: u32, x: Correctness, y: Correctness) -> Result<Correctness, ErrorKind>
    ensures { result ≡ combination_of kind x y }
{
    match kind {
        19 => Correctness::and_v(x, y),
        20 => Correctness::and_b(x, y),
        22 => Correctness::or_b(x, y),
        23 => Correctness::or_d(x, y),
        24 => Correctness::or_c(x, y),
        _ => Correctness::or_i(x, y),
    }
}

// Why a rule refuses, as 01's reason; 0 of a type: it is asked only where a let .. else has found none (01's form).
pub fn reason(answer: Result<Correctness, ErrorKind>) -> u32
    ensures { result ≡ reasons.reason answer }
{
    match answer {
        Ok(_) => 0,
        Err(error) => error.reason(),
    }
}

// The newest finished tree under a wrapper. The four reductions answer the node, or 14's reason as a number: where a rule
// refuses, a `let .. else` leaves at once, and that has no name for the rule's error.
pub fn reduce1(nodes: &[u32], m: usize, kind: u32) -> Result<Node, u32>
    requires { Finished 1 m nodes.now }
    ensures { making_of result ≡ reduce_one kind (newest (node_at nodes.now) m) }
{
    let x = m - 1;
    let answer = cast(kind, type_at(nodes, x));
    let Ok(ty) = answer else {
        return Err(reason(answer));
    };
    let size = size_at(nodes, x) + 1;
    Ok(typed(kind, 0, 0, 0, size, ty))
}

// The two newest finished trees; the newest is the first in script order.
pub fn reduce2(nodes: &[u32], m: usize, kind: u32) -> Result<Node, u32>
    requires { Finished 2 m nodes.now }
    ensures { making_of result ≡ reduce_two kind (newest (node_at nodes.now) m) }
{
    let x = m - 1;
    let x_size = size_at(nodes, x);
    let y = x - (x_size as usize);
    let y_size = size_at(nodes, y);
    let answer = combine(kind, type_at(nodes, x), type_at(nodes, y));
    let Ok(ty) = answer else {
        return Err(reason(answer));
    };
    let size = x_size + y_size + 1;
    Ok(typed(kind, 0, 0, 0, size, ty))
}

// and_or of the three newest finished trees, whose script order is X, Z, Y.
pub fn tern(nodes: &[u32], m: usize) -> Result<Node, u32>
    requires { Finished 3 m nodes.now }
    ensures { making_of result ≡ reduce_three (newest (node_at nodes.now) m) }
{
    let x = m - 1;
    let x_size = size_at(nodes, x);
    let z = x - (x_size as usize);
    let z_size = size_at(nodes, z);
    let y = z - (z_size as usize);
    let y_size = size_at(nodes, y);
    let answer = Correctness::and_or(type_at(nodes, x), type_at(nodes, y), type_at(nodes, z));
    let Ok(ty) = answer else {
        return Err(reason(answer));
    };
    let size = x_size + y_size + z_size + 1;
    Ok(typed(21, 0, 0, 0, size, ty))
}

// thresh of the n newest finished trees, child by child.
pub fn thresh(nodes: &[u32], m: usize, k: u32, n: u32) -> Result<Node, u32>
    requires { Finished n m nodes.now }
    ensures { making_of result ≡ reduce_many k n (newest (node_at nodes.now) m) }
{
    let mut earlier = Correctness::no_children();
    let mut at = m;
    let mut size = 0;
    for i in 0..n {
        let child = at - 1;
        let answer = Correctness::threshold_child(i, earlier, type_at(nodes, child));
        let Ok(next) = answer else {
            return Err(reason(answer));
        };
        let child_size = size_at(nodes, child);
        earlier = next;
        at -= child_size as usize;
        size += child_size;
    }
    Ok(typed(26, k, n, 0, size + 1, earlier))
}
