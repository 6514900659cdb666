// The reader for callers who lend a slice of node records: `decode::read` on the flat tables, and its nodes copied out. The
// flat node table that the decoder works on is lent beside the records.
#![tactic(auto)]

ghost use Rattle.std.specs.Prelude.{◌≡◌, ◌++◌, ◌-◌, ◌*◌, ◌≤◌, length, take};
ghost use Rattle.tables.specs.Tables.{zeros};
ghost use Rattle.decode.specs.Read.{lengths_of, outcome_at};
ghost use Rattle.read_records.specs.RecordOutcome.{node_room, outcome_within, record_outcome_at, record_outcome_of};

use decode::Answer;
use judge::Node;

// How many nodes both tables have room for: a flat one of so many numbers, and so many records.
fn node_room(cells: usize, records: usize) -> usize
    ensures { (result ≡ node_room cells records) × ((9 * result ≤ cells) × (result ≤ records)) }
{
    (cells / 9).min(records)
}

// Clears a table but for its first n numbers.
fn clear_behind(t: &mut [u32], n: usize)
    requires { n ≤ length t.old }
    ensures { t.new ≡ take n t.old ++ zeros (length t.old - n) }
{
    t[n..].fill(0);
}

// Reads a script into the flat tables, with room for no more nodes than there are records. What lies behind that room is
// cleared.
// Each table apart, here and below: callers in C lend them so.
fn read_within(
    kind: u32,
    script: &[u8],
    tokens: &mut [u32],
    nodes: &mut [u32],
    keys: &mut [u32],
    work: &mut [u64],
    records: usize,
) -> Answer
    ensures { (outcome_at result tokens.new nodes.new keys.new work.new ≡ outcome_within kind script.now (lengths_of tokens.old nodes.old keys.old work.old) records) × ((9 * result.nodes ≤ length nodes.old) × (result.nodes ≤ records)) }
{
    let front = 9 * node_room(nodes.len(), records);
    clear_behind(nodes, front);
    decode::read(kind, script, tokens, &mut nodes[..front], keys, work)
}

// Reads a script: its kind (0 segwit, 1 tapscript), its bytes, and five lent tables in; the answer out. The tables end as
// document 01 has them, whatever they held before; the records are the nodes of the flat table, and zero records behind.
pub fn read_records(
    kind: u32,
    script: &[u8],
    tokens: &mut [u32],
    nodes: &mut [u32],
    records: &mut [Node],
    keys: &mut [u32],
    work: &mut [u64],
) -> Answer
    ensures { record_outcome_at result tokens.new nodes.new records.new keys.new work.new ≡ record_outcome_of kind script.now (lengths_of tokens.old nodes.old keys.old work.old) (length records.old) }
{
    let room = records.len();
    let r = read_within(kind, script, tokens, nodes, keys, work, room);
    node_records::copy_out(nodes, r.nodes, records);
    r
}
