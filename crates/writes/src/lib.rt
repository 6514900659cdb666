// What a step writes: entries on the work list, a node behind those in the node table, a multi's keys behind those in the
// key table. All that doesn't fit is refused before anything is written, in document 01's order.
#![tactic(auto)]

ghost use Rattle.std.specs.Prelude.{◌≡◌, [], ◌∷◌, ◌+◌, ◌/◌, ◌≤◌, ◌<◌, length, map, MatchResult};
ghost use Rattle.row.specs.declared.NonTerm.TheVariants as non-term;
ghost use Rattle.row.specs.Request.{offsets_from};
ghost use Rattle.judge.specs.Nodes.{new_leaf};
ghost use Rattle.judge.specs.NodeTable.{node_of, making_of};
ghost use Rattle.work_list.specs.Work.{packed, AllSmall};
ghost use Rattle.node_store.specs.Offsets.{Low};
ghost use Rattle.writes.specs.Written.{stop_of, stop_of_row, Enters, Stores, Finishes, Verified, Leaves, Keyed};

use judge::Node;
use node_store::KeyTokens;
use row::{NonTerm, Refused};

// How many tokens are left, and how many entries, nodes and keys the tables hold.
// No ghost field for the bounds: each node added brings the next state nearer to them, so a step has them of its own state.
#[derive(Clone, Copy)]
pub struct State {
    pub left: usize,
    pub work: usize,
    pub nodes: usize,
    pub keys: usize,
}

// A refusal: document 01's number and reason, and how many tokens stand before the one that it is about.
// By 01's number, as the rows' definitions refuse: what is between here and the answer hands it on, and an enum would give each
// number a second name.
#[derive(Clone, Copy)]
pub struct Stop {
    pub number: u32,
    pub reason: u32,
    pub left: usize,
}

impl State {
    pub fn stop(self, number: u32, reason: u32) -> Stop
        ensures { result ≡ stop_of self number reason }
    {
        Stop {
            number,
            reason,
            left: self.left,
        }
    }
}

// A row's refusal has no reason.
impl From<Refused> for Stop {
    ghost from_gives = { λ e stop. stop ≡ stop_of_row e };

    fn from(e: Refused) -> Stop {
        Stop {
            number: e.number,
            reason: 0,
            left: e.left,
        }
    }
}

// 15 if there is no room for one node more.
fn node_room(nodes: &[u32], s: State) -> Result<(), Stop>
    ensures { MatchResult result (λ _. s.nodes + 1 ≤ length nodes.now / 9) (λ e. (length nodes.now / 9 < s.nodes + 1) × (e ≡ stop_of s 15 0)) }
{
    if nodes.len() / 9 <= s.nodes {
        return Err(s.stop(15, 0));
    }
    Ok(())
}

// This refusal if there is no room in a table for so many more behind those in use.
fn room<T>(table: &[T], used: usize, more: usize, refusal: Stop) -> Result<(), Stop>
    requires { used ≤ length table.now }
    ensures { MatchResult result (λ _. used + more ≤ length table.now) (λ e. (length table.now < used + more) × (e ≡ refusal)) }
{
    if table.len() - used < more {
        return Err(refusal);
    }
    Ok(())
}

// More entries, the last one on top; or 17.
pub fn enter(work: &mut [u64], s: State, entries: &[NonTerm]) -> Result<State, Stop>
    requires { (s.work ≤ length work.old) × AllSmall entries.now }
    ensures { Enters work.old work.new s (map packed entries.now) result }
{
    let more = entries.len();
    room(work, s.work, more, s.stop(17, 0))?;
    work_list::enter(work, s.work, entries);
    Ok(State {
        work: s.work + more,
        ..s
    })
}

// One node more, or 15.
fn store(nodes: &mut [u32], s: State, x: Node) -> Result<State, Stop>
    requires { s.nodes + 1 < 4294967296 }
    ensures { Stores nodes.old nodes.new s (node_of x) result }
{
    node_room(nodes, s)?;
    node_store::put(nodes, s.nodes, x);
    Ok(State {
        nodes: s.nodes + 1,
        ..s
    })
}

// A node that was judged: 14 with its reason if no rule types it, then 15.
pub fn finish(nodes: &mut [u32], s: State, made: Result<Node, u32>) -> Result<State, Stop>
    requires { s.nodes + 1 < 4294967296 }
    ensures { Finishes nodes.old nodes.new s (making_of made) result }
{
    let x = made.map_err(|reason| s.stop(14, reason))?;
    store(nodes, s, x)
}

// A leaf without keys under a v:, whose entry is entered with it: 15, then 17.
fn verified(nodes: &mut [u32], work: &mut [u64], s: State, x: Node) -> Result<State, Stop>
    requires { (s.work ≤ length work.old) × (s.nodes + 1 < 4294967296) }
    ensures { Verified nodes.old nodes.new work.old work.new s (node_of x) (packed non-term.Verify ∷ []) result }
{
    node_room(nodes, s)?;
    room(work, s.work, 1, s.stop(17, 0))?;
    node_store::put(nodes, s.nodes, x);
    work_list::enter(work, s.work, &[NonTerm::Verify]);
    Ok(State {
        work: s.work + 1,
        nodes: s.nodes + 1,
        ..s
    })
}

// A leaf without keys, under a v: or not.
pub fn leaf(
    nodes: &mut [u32],
    work: &mut [u64],
    s: State,
    x: Node,
    verify: bool,
) -> Result<State, Stop>
    requires { (s.work ≤ length work.old) × (s.nodes + 1 < 4294967296) }
    ensures { Leaves nodes.old nodes.new work.old work.new s (node_of x) verify result }
{
    if verify {
        return verified(nodes, work, s, x);
    }
    store(nodes, s, x)
}

// A leaf with n keys: 16 if they don't all fit, then 15.
#[tactic(auto, using(node_store::proofs::KeyLaws::offsets_length))]
fn with_keys(
    tokens: &[u32],
    nodes: &mut [u32],
    keys: &mut [u32],
    s: State,
    x: Node,
    n: usize,
    pushed: KeyTokens,
) -> Result<State, Stop>
    requires { (s.keys ≤ length keys.old) × (s.nodes + 1 < 4294967296) × Low tokens.now }
    ensures { Keyed nodes.old nodes.new keys.old keys.new s (node_of x) (offsets_from tokens.now n pushed.first pushed.stride) result }
{
    room(keys, s.keys, n, s.stop(16, 0))?;
    node_room(nodes, s)?;
    node_store::put(nodes, s.nodes, x);
    node_store::copy_keys(tokens, keys, s.keys, n, pushed);
    Ok(State {
        nodes: s.nodes + 1,
        keys: s.keys + n,
        ..s
    })
}

// A multi or multi_a.
pub fn multi(
    tokens: &[u32],
    nodes: &mut [u32],
    keys: &mut [u32],
    s: State,
    kind: u32,
    k: u32,
    n: u32,
    pushed: KeyTokens,
) -> Result<State, Stop>
    requires { (s.keys ≤ length keys.old) × (s.keys < 2147483648) × (s.nodes + 1 < 4294967296) × Low tokens.now }
    ensures { Keyed nodes.old nodes.new keys.old keys.new s (new_leaf kind k n s.keys) (offsets_from tokens.now n pushed.first pushed.stride) result }
{
    let x = judge::leaf(kind, k, n, s.keys as u32);
    with_keys(tokens, nodes, keys, s, x, n as usize, pushed)
}
