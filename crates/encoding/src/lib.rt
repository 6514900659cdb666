// The encoder's outcome as definitions, see specs/, and the laws that its code is proved by. The code is what its parts are
// lent, and no more.
#![tactic(auto)]

// What an encoder is lent: the kind of script, a node table, a key table, and the bytes that keys and hashes are taken from.
#[derive(Clone, Copy)]
pub struct Source<'a> {
    pub segwit: bool,
    pub nodes: &'a [u32],
    pub keys: &'a [u32],
    pub material: &'a [u8],
}
