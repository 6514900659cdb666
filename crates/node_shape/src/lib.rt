// The encoder's checks that look at one node alone: what a node of its kind holds, that unused fields are 0 and that
// places and key offsets are in range (21), and that its values are allowed (11, 12, 13).
#![tactic(auto)]

ghost use Rattle.std.specs.Prelude.{◌≡◌, true, false, ◌+◌, ◌≤◌, length};
ghost use Rattle.standard.specs.Allowed as allowed;
ghost use Rattle.standard.specs.Table.{terminal_of, key_length, key_code, keys_at};
ghost use Rattle.judge.specs.NodeTable.{node_of};
ghost use Rattle.locks.specs.Leaves.{key_at};
ghost use Rattle.encoding.specs.Form.{shape, shape_of, unused_are_zero, all_within, in_range, child_count};
ghost use Rattle.encoding.specs.Values.{value_refusal};
ghost use Rattle.node_shape.specs.Shapes.{shape_held, shape_told, number_of, refusal_told, key_refusal, locktime_refusal, thresh_refusal, multi_refusal, multi_a_refusal};

use judge::Node;
use locks::key_form;
use row::kind;
use row::token::{BYTES32, BYTES33};

// What a node of a kind holds. 0 and no Option, as Form.antt has it: a node's place with no bytes is within any material.
#[derive(Clone, Copy)]
pub struct Shape {
    // Whether it has a number: a locktime or k.
    pub number: bool,
    // Whether it counts its children, as thresh does.
    pub counts: bool,
    // How many bytes of a key or hash stand at its place, 0 if none.
    pub bytes: u32,
    // How many bytes each key has that it names in the key table, 0 if it names none.
    pub key: u32,
    // How many children it has, where it doesn't count them.
    pub children: u32,
}

// Why a node's values are refused: its key's form (11), its locktime (12), its threshold or how many there are (13).
#[derive(Clone, Copy, Debug, PartialEq, Eq)]
pub enum ValueError {
    KeyForm,
    Locktime,
    Threshold,
}

impl ValueError {
    // 01's number. A method and no From: 01 has several numbers of one value, and the name says which.
    pub fn number(self) -> u32
        ensures { result ≡ number_of self }
    {
        match self {
            ValueError::KeyForm => 11,
            ValueError::Locktime => 12,
            ValueError::Threshold => 13,
        }
    }
}

// A kind that holds nothing but so many children.
fn parent(children: u32) -> Shape
    ensures { shape_held result ≡ shape false false 0 0 children }
{
    Shape {
        number: false,
        counts: false,
        bytes: 0,
        key: 0,
        children,
    }
}

// A leaf with a key or hash.
fn with_data(bytes: u32) -> Shape
    ensures { shape_held result ≡ shape false false bytes 0 0 }
{
    Shape {
        number: false,
        counts: false,
        bytes,
        key: 0,
        children: 0,
    }
}

// A kind with a locktime or k.
fn with_number(counts: bool, key: u32) -> Shape
    ensures { shape_held result ≡ shape true counts 0 key 0 }
{
    Shape {
        number: true,
        counts,
        bytes: 0,
        key,
        children: 0,
    }
}

// How many bytes a pk_k's key has.
pub fn key_length(segwit: bool) -> u32
    ensures { result ≡ key_length segwit }
{
    if segwit { 33 } else { 32 }
}

// The push that such a key is.
fn key_code(segwit: bool) -> u32
    ensures { result ≡ key_code segwit }
{
    if segwit { BYTES33 } else { BYTES32 }
}

// What a node of this kind holds; 0, 4 and all above 28 are no kinds.
#[tactic(auto, unfolding(standard::specs::Table::terminal_of))]
pub fn shape_of(segwit: bool, kind: u32) -> Option<Shape>
    ensures { shape_told result ≡ shape_of segwit (terminal_of kind) }
{
    match kind {
        kind::TRUE | kind::FALSE => Some(parent(0)),
        kind::PK_K => Some(with_data(key_length(segwit))),
        kind::RAW_PK_H | kind::RIPEMD160 | kind::HASH160 => Some(with_data(20)),
        kind::AFTER | kind::OLDER => Some(with_number(false, 0)),
        kind::SHA256 | kind::HASH256 => Some(with_data(32)),
        kind::ALT..=kind::ZERO_NOT_EQUAL => Some(parent(1)),
        kind::AND_V | kind::AND_B => Some(parent(2)),
        kind::AND_OR => Some(parent(3)),
        kind::OR_B..=kind::OR_I => Some(parent(2)),
        kind::THRESH => Some(with_number(true, 0)),
        kind::MULTI => Some(with_number(false, 33)),
        kind::MULTI_A => Some(with_number(false, 32)),
        _ => None,
    }
}

// How many of the newest finished trees are a node's children.
pub fn child_count(s: Shape, n: Node) -> u32
    ensures { result ≡ child_count (shape_held s) (node_of n) }
{
    if s.counts { n.count } else { s.children }
}

// "Unused fields are 0".
pub fn unused_are_zero(s: Shape, n: Node) -> bool
    ensures { result ≡ unused_are_zero (shape_held s) (node_of n) }
{
    let number_fits = s.number || n.number == 0;
    let count_fits = s.counts || 1 <= s.key || n.count == 0;
    let place_fits = 1 <= s.bytes || 1 <= s.key || n.place == 0;
    number_fits && count_fits && place_fits
}

// Where the bytes at an offset end.
fn end_of(offset: u32, bytes: u32) -> usize
    ensures { result ≡ offset + bytes }
{
    (offset as usize) + (bytes as usize)
}

// Whether so many bytes from each offset on lie within the material.
fn all_within(bytes: u32, material: usize, offsets: &[u32]) -> bool
    ensures { result ≡ all_within bytes material offsets.now }
{
    offsets
        .iter()
        .all(|offset| end_of(*offset, bytes) <= material)
}

// Whether the data at its place, or the keys that it names, are in range; `material` is how many bytes there are.
pub fn in_range(s: Shape, n: Node, keys: &[u32], material: usize) -> bool
    ensures { result ≡ in_range material keys.now (shape_held s) (node_of n) }
{
    if s.key < 1 {
        return end_of(n.place, s.bytes) <= material;
    }
    keys.get(n.place as usize..end_of(n.place, n.count))
        .is_some_and(|named| all_within(s.key, material, named))
}

// A pk_k's key has the key form.
fn key_refusal(segwit: bool, material: &[u8], place: u32) -> Result<(), ValueError>
    ensures { refusal_told result ≡ key_refusal segwit material.now place }
{
    if !key_form(segwit, material, key_code(segwit), place) {
        return Err(ValueError::KeyForm);
    }
    Ok(())
}

// A locktime is 1 to 2,147,483,647.
fn locktime_refusal(number: u32) -> Result<(), ValueError>
    ensures { refusal_told result ≡ locktime_refusal number }
{
    if number < 1 || 2147483647 < number {
        return Err(ValueError::Locktime);
    }
    Ok(())
}

// 1 ≤ k ≤ n.
fn thresh_refusal(k: u32, n: u32) -> Result<(), ValueError>
    ensures { refusal_told result ≡ thresh_refusal k n }
{
    if k < 1 || n < k {
        return Err(ValueError::Threshold);
    }
    Ok(())
}

// Whether the bytes at an offset have a multi's key form; in tapscript none have.
fn multi_key_formed(segwit: bool, material: &[u8], offset: u32) -> bool
    ensures { result ≡ allowed.multi_key segwit (key_at material.now BYTES33 offset) }
{
    segwit && key_form(segwit, material, BYTES33, offset)
}

// Whether every key of a multi has the key form.
fn multi_keys_formed(segwit: bool, material: &[u8], offsets: &[u32]) -> bool
    ensures { result ≡ allowed.all_multi_keys segwit (keys_at material.now offsets.now) }
{
    offsets
        .iter()
        .all(|offset| multi_key_formed(segwit, material, *offset))
}

// A multi's keys, then 1 ≤ n ≤ 20 and 1 ≤ k ≤ n. The keys by place and count, as the node holds them.
// The decoder tests this in two steps, n before the keys and k after them.
fn multi_refusal(
    segwit: bool,
    material: &[u8],
    keys: &[u32],
    place: usize,
    k: u32,
    n: u32,
) -> Result<(), ValueError>
    requires { place + n ≤ length keys.now }
    ensures { refusal_told result ≡ multi_refusal segwit material.now keys.now place k n }
{
    let formed = multi_keys_formed(segwit, material, &keys[place..place + n as usize]);
    if !formed {
        return Err(ValueError::KeyForm);
    }
    if n < 1 || 20 < n {
        return Err(ValueError::Threshold);
    }
    thresh_refusal(k, n)
}

// A multi_a's keys, of which segwit allows none; then 1 ≤ k ≤ 999 and k ≤ n ≤ 999.
fn multi_a_refusal(segwit: bool, k: u32, n: u32) -> Result<(), ValueError>
    ensures { refusal_told result ≡ multi_a_refusal segwit k n }
{
    if segwit && 1 <= n {
        return Err(ValueError::KeyForm);
    }
    if k < 1 || 999 < k || n < k || 999 < n {
        return Err(ValueError::Threshold);
    }
    Ok(())
}

// Whether a node's values are allowed.
#[tactic(auto, unfolding(standard::specs::Table::terminal_of, encoding::specs::Values::value_refusal))]
pub fn value_refusal(segwit: bool, n: Node, keys: &[u32], material: &[u8]) -> Result<(), ValueError>
    requires { 27 ≤ n.kind → n.place + n.count ≤ length keys.now }
    ensures { refusal_told result ≡ value_refusal segwit material.now keys.now (node_of n) }
{
    match n.kind {
        kind::PK_K => key_refusal(segwit, material, n.place),
        kind::AFTER | kind::OLDER => locktime_refusal(n.number),
        kind::THRESH => thresh_refusal(n.number, n.count),
        kind::MULTI => multi_refusal(segwit, material, keys, n.place as usize, n.number, n.count),
        kind::MULTI_A => multi_a_refusal(segwit, n.number, n.count),
        _ => Ok(()),
    }
}
