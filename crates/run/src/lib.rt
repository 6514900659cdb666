// decode.rs's loop over lent tables. One step takes one entry off the work list: its row is read (crate `rows`), the node
// that it asks for is judged (crate `judge`), and only then anything is written (crate `perform`).
#![tactic(auto)]

ghost use Rattle.std.specs.Prelude.{◌≡◌, ◌*◌, ◌≤◌, length, MatchResult};
ghost use mathlib.Core.List.{[], reverse_aux};
ghost use Rattle.standard.specs.Machine.{decode};
ghost use Rattle.row.specs.Tokens.{InTable, lexemes_left};
ghost use Rattle.perform.specs.View.{room_of, Behind, Steps};
ghost use Rattle.run.specs.Stepping.{Stepping};
ghost use Rattle.run.specs.Runs.{ran_of, halted, closes_with, Runs};

use row::NonTerm;
use writes::{State, Stop};

// How far a run came: the steps, and how many nodes and keys the tables hold.
#[derive(Clone, Copy)]
pub struct Ran {
    pub steps: usize,
    pub nodes: usize,
    pub keys: usize,
}

// A run that a refusal ended, and how far it came.
#[derive(Clone, Copy)]
pub struct Halted {
    pub stop: Stop,
    pub ran: Ran,
}

impl Ran {
    fn of(s: State, steps: usize) -> Ran
        ensures { result ≡ ran_of s steps }
    {
        Ran {
            steps,
            nodes: s.nodes,
            keys: s.keys,
        }
    }
}

// One entry taken off the work list. The lent tables are handed on one by one: a struct that holds them would need a clause
// more in each contract, that it still holds the same ones, and what writes to one table takes no other.
fn step(
    segwit: bool,
    script: &[u8],
    tokens: &[u32],
    nodes: &mut [u32],
    keys: &mut [u32],
    work: &mut [u64],
    s: State,
) -> Result<State, Stop>
    requires { Stepping segwit script.now tokens.now nodes.old keys.old work.old s }
    ensures { Steps segwit script.now tokens.now nodes.old keys.old work.old nodes.new keys.new work.new s result }
{
    let entry = work_list::take(work, s.work);
    let found = rows::row_of(segwit, script, tokens, s.left, entry)?;
    let after = State {
        left: found.left,
        work: s.work - 1,
        ..s
    };
    perform::perform(tokens, nodes, keys, work, after, found.row)
}

// A step's answer; a refusal says how far the run has come.
fn counted(answer: Result<State, Stop>, s: State, steps: usize) -> Result<State, Halted>
    ensures { MatchResult answer (λ t. result ≡ Ok t) (λ stop. result ≡ halted stop s steps) }
{
    answer.map_err(|stop| Halted {
        stop,
        ran: Ran::of(s, steps),
    })
}

// The work list is empty: 18 if tokens are left over, 19 if the tree's base is not B.
#[tactic(auto, using(crate::proofs::CloseLaws::is_first))]
fn close(nodes: &[u32], s: State, steps: usize) -> Result<Ran, Halted>
    requires { (1 ≤ s.nodes) × (9 * s.nodes ≤ length nodes.now) }
    ensures { result ≡ closes_with nodes.now s steps }
{
    let ran = Ran::of(s, steps);
    if 0 < s.left {
        let stop = Stop {
            number: 18,
            reason: 0,
            left: s.left - 1,
        };
        return Err(Halted { stop, ran });
    }
    if !judge::type_at(nodes, s.nodes - 1).base.is_b() {
        let stop = s.stop(19, 0);
        return Err(Halted { stop, ran });
    }
    Ok(ran)
}

// The rows, from the whole token list on. The node table and the key table are clear. The count stands
// beside the table: the tokens are a part of it, but what lies behind them is cleared with it.
pub fn run(
    segwit: bool,
    script: &[u8],
    tokens: &[u32],
    count: usize,
    nodes: &mut [u32],
    keys: &mut [u32],
    work: &mut [u64],
) -> Result<Ran, Halted>
    requires in_table { InTable tokens.now count }
    requires count_bound { (count ≤ 33554432) × (Behind nodes.old 0) × (Behind keys.old 0) }
    ensures { Runs segwit (decode segwit (room_of nodes.old keys.old work.old) (reverse_aux (lexemes_left script.now tokens.now count) [])) nodes.new keys.new result }
{
    let none = State {
        left: count,
        work: 0,
        nodes: 0,
        keys: 0,
    };
    let start = [NonTerm::MaybeAndV, NonTerm::Expression];
    let mut s = counted(writes::enter(work, none, &start), none, 0)?;
    let mut steps: usize = 0;
    // No for: steps are counted in the answer (01), and the work list says how long it goes on.
    while 0 < s.work {
        let got = step(segwit, script, tokens, nodes, keys, work, s);
        steps += 1;
        s = counted(got, s, steps)?;
    }
    close(nodes, s, steps)
}
