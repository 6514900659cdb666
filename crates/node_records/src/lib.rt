// The node table as a lent slice of records, over the flat table with nine numbers for a node. The flat table is what the
// decoder works on; a caller who wants records has them copied out of it, and one who has records has them copied in. put, get and clear are 01's.
#![tactic(auto)]

ghost use Rattle.std.specs.Prelude.{◌≡◌, ◌*◌, ◌≤◌, ◌<◌, length, set, get_or};
ghost use Rattle.node_records.specs.Records.{zero_record, record_at, record_table, written_over};

use judge::Node;

// The record that a cleared place holds.
pub fn zero_record() -> Node
    ensures { result ≡ zero_record }
{
    Node::default()
}

// A record is stored.
pub fn put(records: &mut [Node], i: usize, n: Node)
    requires { i < length records.old }
    ensures { records.new ≡ set records.old i n }
{
    records[i] = n;
}

// A record is read.
pub fn get(records: &[Node], i: usize) -> Node
    requires { i < length records.now }
    ensures { result ≡ get_or records.now i zero_record }
{
    records[i]
}

// A record is cleared.
pub fn clear(records: &mut [Node], i: usize)
    requires { i < length records.old }
    ensures { records.new ≡ set records.old i zero_record }
{
    records[i] = zero_record();
}

// Node number i of a flat table that holds n; behind them, the zero record. Nine fields one by one, as
// closing::node_at reads them: the edit place-and-size-swapped is of these lines.
#[tactic(auto, unfolding(crate::specs::Records::record_at))]
pub fn record_at(flat: &[u32], n: usize, i: usize) -> Node
    requires { 9 * n ≤ length flat.now }
    ensures { result ≡ record_at flat.now n i }
{
    if n <= i {
        return zero_record();
    }
    let at = 9 * i;
    Node {
        kind: flat[at],
        number: flat[at + 1],
        count: flat[at + 2],
        place: flat[at + 3],
        size: flat[at + 4],
        base: flat[at + 5],
        input: flat[at + 6],
        d: flat[at + 7],
        u: flat[at + 8],
    }
}

// The first n records are those of the flat table, and all others are zero records, whatever the records were before.
pub fn copy_out(flat: &[u32], n: usize, records: &mut [Node])
    requires { (9 * n ≤ length flat.now) × (n ≤ length records.old) }
    ensures { records.new ≡ record_table flat.now n (length records.old) }
{
    for (i, record) in records.iter_mut().enumerate() {
        *record = record_at(flat, n, i);
    }
}

// The records' numbers are written to the front of the flat table.
pub fn copy_in(records: &[Node], flat: &mut [u32])
    requires { 9 * length records.now ≤ length flat.old }
    ensures { flat.new ≡ written_over records.now flat.old }
{
    for (i, record) in records.iter().enumerate() {
        node_store::put(flat, i, *record);
    }
}
