// What a row asks for, carried out on the lent tables: decode.rs's pushes onto its work list and its term stack. All that
// doesn't fit is refused before anything is written.
#![tactic(auto)]

ghost use Rattle.row.specs.Request.{request_of};
ghost use Rattle.node_store.specs.Offsets.{Low};
ghost use Rattle.lists.specs.Ready.{Ready};
ghost use Rattle.perform.specs.View.{Inside, Performs};

use node_store::KeyTokens;
use row::Row;
use writes::{State, Stop};

// What a row asks for, carried out. The tables one by one, as in run's step.
pub fn perform(
    tokens: &[u32],
    nodes: &mut [u32],
    keys: &mut [u32],
    work: &mut [u64],
    s: State,
    row: Row,
) -> Result<State, Stop>
    requires inside { Inside nodes.old keys.old work.old s }
    requires low { Low tokens.now }
    requires ready { Ready s.nodes nodes.old (request_of tokens.now row) }
    ensures { Performs tokens.now nodes.old keys.old work.old nodes.new keys.new work.new s (request_of tokens.now row) result }
{
    let m = s.nodes;
    match row {
        Row::Enter0 => Ok(s),
        Row::Enter1(a) => writes::enter(work, s, &[a]),
        Row::Enter2(a, b) => writes::enter(work, s, &[a, b]),
        Row::Enter3(a, b, c) => writes::enter(work, s, &[a, b, c]),
        Row::Leaf {
            kind,
            number,
            place,
            verify,
        } => writes::leaf(nodes, work, s, judge::leaf(kind, number, 0, place), verify),
        Row::Keys {
            kind,
            k,
            n,
            first,
            stride,
        } => {
            let pushed = KeyTokens { first, stride };
            writes::multi(tokens, nodes, keys, s, kind, k, n, pushed)
        }
        Row::Reduce1(kind) => {
            let made = judge::reduce1(nodes, m, kind);
            writes::finish(nodes, s, made)
        }
        Row::Reduce2(kind) => {
            let made = judge::reduce2(nodes, m, kind);
            writes::finish(nodes, s, made)
        }
        Row::Tern => {
            let made = judge::tern(nodes, m);
            writes::finish(nodes, s, made)
        }
        Row::Thresh { k, n } => {
            let made = judge::thresh(nodes, m, k, n);
            writes::finish(nodes, s, made)
        }
    }
}
