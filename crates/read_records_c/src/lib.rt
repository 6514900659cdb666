// The reader over node records for callers in C, under the plain name `read_records` (include/phagdrulis_records.h). It calls
// `read_records::read_records` and promises what that does.
#![tactic(auto)]

ghost use Rattle.std.specs.Prelude.{◌≡◌, length};
ghost use Rattle.decode.specs.Read.{lengths_of};
ghost use Rattle.read_records.specs.RecordOutcome.{record_outcome_at, record_outcome_of};

use decode::Answer;
use judge::Node;

#[unsafe(no_mangle)]
pub extern "C" fn read_records(
    kind: u32,
    script: &[u8],
    tokens: &mut [u32],
    nodes: &mut [u32],
    records: &mut [Node],
    keys: &mut [u32],
    work: &mut [u64],
) -> Answer
    ensures { record_outcome_at result tokens.new nodes.new records.new keys.new work.new ≡ record_outcome_of kind script.now (lengths_of tokens.old nodes.old keys.old work.old) (length records.old) }
{
    read_records::read_records(kind, script, tokens, nodes, records, keys, work)
}
