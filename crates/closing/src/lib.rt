// The encoder's closing checks of a node table that a caller lends: node by node 21, 11, 12, 13, 14, then one root, else 21,
// and 19. The finished trees before a node are found by their roots' sizes, as `judge` finds them, so nothing is
// written, and a node is looked at by its own check and by its parent's alone. Work is linear: a multi or multi_a that
// passes names at most 999 keys.
#![tactic(auto)]

ghost use Rattle.std.specs.Prelude.{◌≡◌, ◌+◌, ◌*◌, ◌≤◌, ◌<◌, length};
ghost use Rattle.correctness.specs.Rules.{threshold};
ghost use Rattle.judge.specs.NodeTable.{node_at, node_of, Subtrees};
ghost use Rattle.encoding.specs.Checks.{holds_type};
ghost use Rattle.encoding.specs.Encoding.{tree_in};
ghost use Rattle.node_shape.specs.Shapes.{shape_held};
ghost use Rattle.closing.specs.declared.Refusal.TheVariants.{Value};
ghost use Rattle.closing.specs.Verdicts.{refusal_verdict, verdict_told, verdict_on};
ghost use Rattle.closing.specs.Held.{Rooted, fits_from, types_held, pair_held, and_or_held, type_held, Children, formed_held, judged_held, check_held, root_held};

use correctness::{Correctness, ErrorKind};
use encoding::Source;
use judge::{Node, cast, combine, leaf_of, reason, size_at, type_at};
use node_shape::{
    Shape, ValueError, child_count, in_range, shape_of, unused_are_zero, value_refusal,
};

// Why a table is refused.
#[derive(Clone, Copy, Debug, PartialEq, Eq)]
pub enum Refusal {
    // 21.
    NotOneTree,
    // 11, 12 or 13.
    Value(ValueError),
    // 14, with the rule's reason, or 13 where the stored type isn't the one worked out.
    WrongType(u32),
    // 19.
    TopNotB,
}

impl Refusal {
    // 01's number. A method and no From: 01 has several numbers of one value, and the name says which.
    pub fn number(self) -> u32
        ensures { result ≡ (refusal_verdict self).number }
    {
        match self {
            Refusal::NotOneTree => 21,
            Refusal::Value(error) => error.number(),
            Refusal::WrongType(_) => 14,
            Refusal::TopNotB => 19,
        }
    }

    // The reason of 14; 0 with any other number.
    pub fn reason(self) -> u32
        ensures { result ≡ (refusal_verdict self).reason }
    {
        match self {
            Refusal::WrongType(reason) => reason,
            _ => 0,
        }
    }
}

impl From<ValueError> for Refusal {
    ghost from_gives = { λ e r. r ≡ Value e };

    fn from(value: ValueError) -> Refusal {
        Refusal::Value(value)
    }
}

// Node number i.
fn node_at(nodes: &[u32], i: usize) -> Node
    requires { 9 * i + 8 < length nodes.now }
    ensures { node_of result ≡ node_at nodes.now i }
{
    let at = 9 * i;
    Node {
        kind: nodes[at],
        number: nodes[at + 1],
        count: nodes[at + 2],
        place: nodes[at + 3],
        size: nodes[at + 4],
        base: nodes[at + 5],
        input: nodes[at + 6],
        d: nodes[at + 7],
        u: nodes[at + 8],
    }
}

// Whether the first m nodes end in so many trees, and whether the size is that of all of them and one.
fn right_size(nodes: &[u32], m: usize, children: u32, size: u32) -> bool
    requires m_in_bounds { 9 * m ≤ length nodes.now }
    requires rooted { Rooted nodes.now m }
    ensures { result ≡ fits_from nodes.now children m m size }
{
    let mut at = m;
    for _ in 0..children {
        if at < 1 {
            return false;
        }
        at -= size_at(nodes, at - 1) as usize;
    }
    (size as usize) == m - at + 1
}

// Whether the node's fields are those of its shape, and its size is right.
fn well_formed(s: Shape, n: Node, nodes: &[u32], m: usize, keys: &[u32], material: usize) -> bool
    requires m_in_bounds { 9 * m ≤ length nodes.now }
    requires rooted { Rooted nodes.now m }
    ensures { result ≡ formed_held material keys.now (shape_held s) (node_of n) nodes.now m }
{
    unused_are_zero(s, n)
        && in_range(s, n, keys, material)
        && right_size(nodes, m, child_count(s, n), n.size)
}

// The type of a combination of the two newest trees. From here to `type_of_node` is the walk of judge's reductions, for the
// type alone: those make a node and need a table with room to count one more (Finished).
fn pair_type(nodes: &[u32], m: usize, kind: u32) -> Result<Correctness, ErrorKind>
    requires m_in_bounds { 9 * m ≤ length nodes.now }
    requires subtrees { Subtrees 2 m nodes.now }
    ensures { result ≡ pair_held nodes.now m kind }
{
    let x_size = size_at(nodes, m - 1);
    let y = m - (x_size as usize);
    combine(kind, type_at(nodes, m - 1), type_at(nodes, y - 1))
}

// The type of an and_or of the three newest trees, whose script order is X, Z, Y.
fn and_or_type(nodes: &[u32], m: usize) -> Result<Correctness, ErrorKind>
    requires m_in_bounds { 9 * m ≤ length nodes.now }
    requires subtrees { Subtrees 3 m nodes.now }
    ensures { result ≡ and_or_held nodes.now m }
{
    let x_size = size_at(nodes, m - 1);
    let z = m - (x_size as usize);
    let z_size = size_at(nodes, z - 1);
    let y = z - (z_size as usize);
    Correctness::and_or(
        type_at(nodes, m - 1),
        type_at(nodes, y - 1),
        type_at(nodes, z - 1),
    )
}

// The type of a thresh of the n newest trees, child by child.
fn thresh_type(nodes: &[u32], m: usize, n: u32) -> Result<Correctness, ErrorKind>
    requires m_in_bounds { 9 * m ≤ length nodes.now }
    requires subtrees { Subtrees n m nodes.now }
    ensures { result ≡ threshold (types_held nodes.now n m) }
{
    let mut earlier = Correctness::no_children();
    let mut at = m;
    for i in 0..n {
        let child = at - 1;
        earlier = Correctness::threshold_child(i, earlier, type_at(nodes, child))?;
        at -= size_at(nodes, child) as usize;
    }
    Ok(earlier)
}

// The type of the node's tree, by the rule of its kind.
fn type_of_node(s: Shape, n: Node, nodes: &[u32], m: usize) -> Result<Correctness, ErrorKind>
    requires m_in_bounds { 9 * m ≤ length nodes.now }
    requires children { Children (shape_held s) (node_of n) nodes.now m }
    ensures { result ≡ type_held (shape_held s) (node_of n) nodes.now m }
{
    if s.counts {
        return thresh_type(nodes, m, n.count);
    }
    match s.children {
        1 => cast(n.kind, type_at(nodes, m - 1)),
        2 => pair_type(nodes, m, n.kind),
        3 => and_or_type(nodes, m),
        _ => Ok(Correctness::leaf_type(leaf_of(n.kind))),
    }
}

// Whether the node holds this type. Number by number: a stored number that no type has differs from each.
fn holds_type(n: Node, ty: Correctness) -> bool
    ensures { result ≡ holds_type (node_of n) ty }
{
    n.base == ty.base.number()
        && n.input == ty.input.number()
        && n.d == u32::from(ty.dissatisfiable)
        && n.u == u32::from(ty.unit)
}

// 14: the rule's reason, or 13 if the stored type isn't the one worked out.
fn judged(s: Shape, n: Node, nodes: &[u32], m: usize) -> Result<(), Refusal>
    requires m_in_bounds { 9 * m ≤ length nodes.now }
    requires children { Children (shape_held s) (node_of n) nodes.now m }
    ensures { verdict_told result ≡ judged_held (node_of n) (type_held (shape_held s) (node_of n) nodes.now m) }
{
    let answer = type_of_node(s, n, nodes, m);
    let Ok(ty) = answer else {
        return Err(Refusal::WrongType(reason(answer)));
    };
    if !holds_type(n, ty) {
        return Err(Refusal::WrongType(13));
    }
    Ok(())
}

// Node number m, over the trees of the nodes before it.
fn check_node(source: Source, m: usize) -> Result<(), Refusal>
    requires m_in_bounds { 9 * m + 8 < length source.nodes.now }
    requires rooted { Rooted source.nodes.now m }
    ensures { verdict_told result ≡ check_held source.entry.segwit source.entry.material.now source.entry.keys.now source.entry.nodes.now m }
{
    let n = node_at(source.nodes, m);
    let s = shape_of(source.segwit, n.kind).ok_or(Refusal::NotOneTree)?;
    if !well_formed(s, n, source.nodes, m, source.keys, source.material.len()) {
        return Err(Refusal::NotOneTree);
    }
    value_refusal(source.segwit, n, source.keys, source.material)?;
    judged(s, n, source.nodes, m)
}

// One root, with no number behind it, else 21; then 19 unless its base is B.
fn check_root(nodes: &[u32]) -> Result<(), Refusal>
    ensures { verdict_told result ≡ root_held nodes.now }
{
    let count = nodes.len() / 9;
    if count < 1 || size_at(nodes, count - 1) as usize != count || nodes.len() % 9 != 0 {
        return Err(Refusal::NotOneTree);
    }
    if !type_at(nodes, count - 1).base.is_b() {
        return Err(Refusal::TopNotB);
    }
    Ok(())
}

// Whether a node table holds one tree, with all that it says of itself true.
pub fn check_tree(source: Source) -> Result<(), Refusal>
    ensures { verdict_told result ≡ verdict_on (tree_in source.entry.segwit source.entry.nodes.now source.entry.keys.now source.entry.material.now) }
{
    for i in 0..source.nodes.len() / 9 {
        check_node(source, i)?;
    }
    check_root(source.nodes)
}
