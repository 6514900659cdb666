// The encoder for callers who have node records: they are copied into a flat node table, which is lent beside them, and
// `encode::encode` writes the script of its front. The flat table is scratch, as the work table is: both end as zeros.
#![tactic(auto)]

ghost use Rattle.std.specs.Prelude.{◌≡◌, length};
ghost use Rattle.encode.specs.Encode.{answer_of, answer};
ghost use Rattle.encode_records.specs.RecordEncoding.{short, no_room, copied_into, front_encoding, record_encoding, record_encoding_at};

use encode::Encoded;
use judge::Node;

// Whether a flat table of so many numbers lacks room for so many nodes.
fn too_short(cells: usize, nodes: usize) -> bool
    ensures { result ≡ short cells nodes }
{
    cells / 9 < nodes
}

// The records' numbers are written to the front of the flat table; it is as it was if they don't fit.
fn copy_fitting(records: &[Node], flat: &mut [u32])
    ensures { flat.new ≡ copied_into records.now flat.old }
{
    if !too_short(flat.len(), records.len()) {
        node_records::copy_in(records, &mut *flat);
    }
}

// The answer where the flat table has no room for the nodes: an unknown script kind comes first, as everywhere.
// By number: encode's refusals are private to it.
fn no_room(kind: u32) -> Encoded
    ensures { answer_of result ≡ answer (no_room kind) 0 0 }
{
    Encoded {
        number: if 1 < kind { 20 } else { 17 },
        reason: 0,
        place: 0,
        bytes: 0,
    }
}

// Writes the script of the first so many nodes of the flat table. The table is cleared.
fn encode_front(
    kind: u32,
    flat: &mut [u32],
    nodes: usize,
    keys: &[u32],
    material: &[u8],
    work: &mut [u64],
    out: &mut [u8],
) -> Encoded
    ensures { record_encoding_at result out.new work.new flat.new ≡ front_encoding kind flat.old nodes keys.now material.now (length work.old) out.old }
{
    if too_short(flat.len(), nodes) {
        tables::clear(flat);
        tables::clear_work(work);
        return no_room(kind);
    }
    let r = encode::encode(kind, &flat[..9 * nodes], keys, material, work, out);
    tables::clear(flat);
    r
}

// Writes the script of the tree that the records hold: its kind (0 segwit, 1 tapscript), the records, a flat table with
// room for nine numbers a record, the key table, the bytes that keys and hashes are taken from, a work table and the output
// in; the answer out. Answer and output are those of `encode::encode` on the records' numbers.
pub fn encode_records(
    kind: u32,
    records: &[Node],
    flat: &mut [u32],
    keys: &[u32],
    material: &[u8],
    work: &mut [u64],
    out: &mut [u8],
) -> Encoded
    ensures { record_encoding_at result out.new work.new flat.new ≡ record_encoding kind records.now (length flat.old) keys.now material.now (length work.old) out.old }
{
    let nodes = records.len();
    copy_fitting(records, &mut *flat);
    encode_front(kind, flat, nodes, keys, material, work, out)
}
