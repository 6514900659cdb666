// The encoder over node records for callers in C, under the plain name `encode_records` (include/phagdrulis_records.h). It calls
// `encode_records::encode_records` and promises what that does.
#![tactic(auto)]

ghost use Rattle.std.specs.Prelude.{◌≡◌, length};
ghost use Rattle.encode_records.specs.RecordEncoding.{record_encoding, record_encoding_at};

use encode::Encoded;
use judge::Node;

#[unsafe(no_mangle)]
pub extern "C" fn encode_records(
    kind: u32,
    records: &[Node],
    flat: &mut [u32],
    keys: &[u32],
    material: &[u8],
    work: &mut [u64],
    out: &mut [u8],
) -> Encoded
    ensures { record_encoding_at result out.new work.new flat.new ≡ record_encoding kind records.now (length flat.old) keys.now material.now (length work.old) out.old }
{
    encode_records::encode_records(kind, records, flat, keys, material, work, out)
}
