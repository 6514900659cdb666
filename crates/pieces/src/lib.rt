// The encoder's work list: the pieces of a script still to be written, the next one on top. A piece is a lexeme, or the next
// subtree in script order. Here a node's pieces are entered, and a piece that is a lexeme is written.
#![tactic(auto)]

ghost use Rattle.std.specs.Prelude.{◌≡◌, reverse, ◌+◌, ◌*◌, ◌≤◌, ◌<◌, length};
ghost use Rattle.tables.specs.Tables.{put_at};
ghost use Rattle.lex.specs.Token.{data_length};
ghost use Rattle.standard.specs.Table.{terminal_of};
ghost use Rattle.emit.specs.Emission.{inked, penned, Room};
ghost use Rattle.pieces.specs.Pieces.{value_in, entry_for, entries, tags_of, thresh_tags, constant, lexeme_in, Whole};

use emit::Pen;
use instruction::token::{
    ADD, BOOL_AND, BOOL_OR, BYTES32, BYTES33, BYTES65, CHECK_LOCK_TIME_VERIFY,
    CHECK_SEQUENCE_VERIFY, CHECK_SIG, DUP, ELSE, END_IF, EQUAL, FROM_ALT_STACK, HASH20, HASH160,
    HASH256, IF, IF_DUP, NOT_IF, NUM, RIPEMD160, SHA256, SIZE, SWAP, TO_ALT_STACK, VERIFY,
    ZERO_NOT_EQUAL,
};
use row::kind;

// The tags: the codes of the tokens, and behind them a subtree and the numbers 0, 1 and 32. They are no enum: a piece is a
// number in a work table that callers in C lend.
pub const SUBTREE: u32 = 33;

const ZERO: u32 = 34;

const ONE: u32 = 35;

const THIRTY_TWO: u32 = 36;

// A piece as a number: a tag, and the node's number for a number, its place for anything else.
fn entry(tag: u32, number: u32, place: u32) -> u64
    ensures { result ≡ entry_for number place tag }
{
    let value = if tag == NUM { number } else { place };
    u64::from(tag) + 64 * u64::from(value)
}

// The tags of a node's pieces, in script order. A thresh has pieces for each child, and a multi's and multi_a's keys are
// written without pieces.
#[tactic(auto, unfolding(standard::specs::Table::terminal_of))]
pub fn template(segwit: bool, kind: u32) -> &'static [u32]
    ensures { result.now ≡ tags_of segwit (terminal_of kind) }
{
    match kind {
        kind::TRUE => &[ONE],
        kind::FALSE => &[ZERO],
        kind::PK_K if segwit => &[BYTES33],
        kind::PK_K => &[BYTES32],
        kind::RAW_PK_H => &[DUP, HASH160, HASH20, EQUAL, VERIFY],
        kind::AFTER => &[NUM, CHECK_LOCK_TIME_VERIFY],
        kind::OLDER => &[NUM, CHECK_SEQUENCE_VERIFY],
        kind::SHA256 => &[SIZE, THIRTY_TWO, EQUAL, VERIFY, SHA256, BYTES32, EQUAL],
        kind::HASH256 => &[SIZE, THIRTY_TWO, EQUAL, VERIFY, HASH256, BYTES32, EQUAL],
        kind::RIPEMD160 => &[SIZE, THIRTY_TWO, EQUAL, VERIFY, RIPEMD160, HASH20, EQUAL],
        kind::HASH160 => &[SIZE, THIRTY_TWO, EQUAL, VERIFY, HASH160, HASH20, EQUAL],
        kind::ALT => &[TO_ALT_STACK, SUBTREE, FROM_ALT_STACK],
        kind::SWAP => &[SWAP, SUBTREE],
        kind::CHECK => &[SUBTREE, CHECK_SIG],
        kind::DUP_IF => &[DUP, IF, SUBTREE, END_IF],
        kind::VERIFY => &[SUBTREE, VERIFY],
        kind::NON_ZERO => &[SIZE, ZERO_NOT_EQUAL, IF, SUBTREE, END_IF],
        kind::ZERO_NOT_EQUAL => &[SUBTREE, ZERO_NOT_EQUAL],
        kind::AND_V => &[SUBTREE, SUBTREE],
        kind::AND_B => &[SUBTREE, SUBTREE, BOOL_AND],
        kind::AND_OR => &[SUBTREE, NOT_IF, SUBTREE, ELSE, SUBTREE, END_IF], // X, Z, Y
        kind::OR_B => &[SUBTREE, SUBTREE, BOOL_OR],
        kind::OR_D => &[SUBTREE, IF_DUP, NOT_IF, SUBTREE, END_IF],
        kind::OR_C => &[SUBTREE, NOT_IF, SUBTREE, END_IF],
        kind::OR_I => &[IF, SUBTREE, ELSE, SUBTREE, END_IF],
        _ => &[],
    }
}

// The pieces with these tags above the w in use, the first one on top, and how many are in use then.
pub fn enter(work: &mut [u64], w: usize, tags: &[u32], number: u32, place: u32) -> usize
    requires { w + length tags.now ≤ length work.old }
    ensures { (work.new ≡ put_at work.old w (entries number place (reverse tags.now))) × (result ≡ w + length tags.now) }
{
    for (i, tag) in tags.iter().rev().enumerate() {
        work[w + i] = entry(*tag, number, place);
    }
    w + tags.len()
}

// The pieces of a thresh with so many children behind the first: [X1] [X2] ADD .. [Xn] ADD <k> EQUAL.
pub fn enter_thresh(work: &mut [u64], w: usize, further: usize, number: u32, place: u32) -> usize
    requires { w + 2 * further + 3 ≤ length work.old }
    ensures { (work.new ≡ put_at work.old w (entries number place (thresh_tags further))) × (result ≡ w + 2 * further + 3) }
{
    work[w] = entry(EQUAL, number, place);
    work[w + 1] = entry(NUM, number, place);
    for i in 0..further {
        let n = w + 2 + 2 * i;
        work[n] = entry(ADD, number, place);
        work[n + 1] = entry(SUBTREE, number, place);
    }
    let first = w + 2 + 2 * further;
    work[first] = entry(SUBTREE, number, place);
    first + 1
}

// How many bytes a push has.
#[tactic(auto, unfolding(lex::specs::Token::data_length))]
fn data_length(code: u32) -> usize
    ensures { result ≡ data_length code }
{
    match code {
        HASH20 => 20,
        BYTES32 => 32,
        BYTES33 => 33,
        _ => 65,
    }
}

// The numbers that a template itself has: 0, 1 and 32.
#[tactic(auto, unfolding(crate::specs::Pieces::constant))]
fn constant_of(tag: u32) -> u32
    ensures { result ≡ constant tag }
{
    match tag {
        ZERO => 0,
        ONE => 1,
        _ => 32,
    }
}

// Writes a piece that is a lexeme.
pub fn emit_piece(out: &mut [u8], pen: Pen, material: &[u8], piece: u64) -> Pen
    requires { (Room (length out.old) pen (lexeme_in material.now piece)) × (Whole (lexeme_in material.now piece)) }
    ensures { (out.new ≡ inked out.old pen (lexeme_in material.now piece)) × (result ≡ penned pen (lexeme_in material.now piece)) }
{
    let tag = (piece % 64) as u32;
    let value = (piece / 64 % 0x100000000) as u32;
    match tag {
        0..=HASH256 => emit::emit_op(out, pen, tag),
        NUM => emit::emit_number(out, pen, value),
        HASH20..=BYTES65 => {
            emit::emit_push(out, pen, material, value as usize, data_length(tag))
        }
        _ => emit::emit_number(out, pen, constant_of(tag)),
    }
}
