// A leaf's key or hash, handed back as the very part of the caller's script (document 01, section "Encoder").
#![tactic(auto)]

ghost use Rattle.std.specs.Prelude.{◌≡◌};
ghost use Rattle.leaf_part.specs.LeafPart.{leaf_bytes, leaf_part};

use node_shape::key_length;
use row::kind;

// How many bytes of a key or hash a node of this kind has; 0 where it has none.
// 0 and no Option: 01 hands back an empty part there, and this is its length.
fn leaf_bytes(kind: u32, node: u32) -> usize
    ensures { result ≡ leaf_bytes kind node }
{
    match node {
        kind::PK_K => key_length(kind == 0) as usize,
        kind::RAW_PK_H => 20,
        // An arm a kind: two kinds in one arm are tested one after the other, which took 1.7 times as long (docs/LOOK-BACK.md).
        kind::SHA256 => 32,
        kind::HASH256 => 32,
        kind::RIPEMD160 => 20,
        kind::HASH160 => 20,
        _ => 0,
    }
}

// The key or hash of a node of this kind at this place. An empty part where there is none in range, and where the script
// kind is neither 0 nor 1.
pub fn leaf_part(kind: u32, script: &[u8], node: u32, place: u32) -> &[u8]
    ensures { result.now ≡ leaf_part kind script.now node place }
{
    if 1 < kind {
        return &script[..0];
    }
    let start = place as usize;
    script
        .get(start..start + leaf_bytes(kind, node))
        .unwrap_or(&script[..0])
}
