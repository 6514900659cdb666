// For a caller who keeps the records in an array of its own: a record of a reading, and a script that is read into records and
// written again from those very records.
#![tactic(auto)]

ghost use Rattle.std.specs.Prelude.{◌≡◌, ◌<◌, get_or};
ghost use Rattle.decode.specs.Read.{lengths_of};
ghost use Rattle.node_records.specs.Records.{zero_record};
ghost use Rattle.read_records.specs.RecordOutcome.{record_outcome_of};
ghost use Rattle.own_records.specs.WrittenAgain.{written_again, written_again_at};

use encode::Encoded;
use judge::Node;

// Record i of the eight that a reading fills.
// Each table apart, here and below: callers in C lend them so.
pub fn record_read(
    kind: u32,
    script: &[u8],
    tokens: &mut [u32],
    nodes: &mut [u32],
    keys: &mut [u32],
    work: &mut [u64],
    i: usize,
) -> Node
    requires { i < 8 }
    ensures { result ≡ get_or (record_outcome_of kind script.now (lengths_of tokens.old nodes.old keys.old work.old) 8).records i zero_record }
{
    let mut records = [node_records::zero_record(); 8];
    read_records::read_records(kind, script, tokens, nodes, &mut records, keys, work);
    records[i]
}

// Reads a script into eight records and writes it again from as many of them as it has nodes: the flat table and the work
// table serve both, the keys are those that the reading wrote, and keys and hashes are taken from the script. After a refusal
// there is no node, so the encoder refuses too.
pub fn written_again(
    kind: u32,
    script: &[u8],
    tokens: &mut [u32],
    nodes: &mut [u32],
    keys: &mut [u32],
    work: &mut [u64],
    out: &mut [u8],
) -> Encoded
    ensures { written_again_at result tokens.new nodes.new keys.new work.new out.new ≡ written_again kind script.now (lengths_of tokens.old nodes.old keys.old work.old) 8 out.old }
{
    let mut records = [node_records::zero_record(); 8];
    let a = read_records::read_records(kind, script, tokens, nodes, &mut records, keys, work);
    encode_records::encode_records(kind, &records[..a.nodes], nodes, keys, script, work, out)
}
