// Writing lexemes one after the other: each as one instruction, in its shortest form, and a VERIFY together with the opcode
// before it where a fused form exists. Only the last byte written is ever looked back at.
// The output is lent beside the pen: a struct that held it would need a clause more in each contract, that it is still the
// same one.
#![tactic(auto)]

ghost use Rattle.std.specs.Prelude.{◌≡◌, ◌+◌, ◌≤◌, length};
ghost use Rattle.tables.specs.Tables.{put_at};
ghost use Rattle.lex.specs.Token.{op, num, push, data_at};
ghost use Rattle.spelling.specs.Spell.{opcode_byte, has_fused, fused_byte, number_bytes};
ghost use Rattle.emit.specs.Emission.{fusing, digit_count, inked, penned, Room};

use instruction::token;

// How far the output has been written: so many bytes, and the code of the last opcode, 0 where the last lexeme was none.
// 0 and no Option: 0 is no opcode's code, so nothing fuses with it.
#[derive(Clone, Copy)]
pub struct Pen {
    pub at: usize,
    pub last: u32,
}

fn opcode_byte(code: u32) -> u8
    requires { 1 ≤ code }
    ensures { result ≡ opcode_byte code }
{
    match code {
        token::BOOL_AND => 0x9a,
        token::BOOL_OR => 0x9b,
        token::ADD => 0x93,
        token::EQUAL => 0x87,
        token::NUM_EQUAL => 0x9c,
        token::CHECK_SIG => 0xac,
        token::CHECK_SIG_ADD => 0xba,
        token::CHECK_MULTI_SIG => 0xae,
        token::CHECK_SEQUENCE_VERIFY => 0xb2,
        token::CHECK_LOCK_TIME_VERIFY => 0xb1,
        token::FROM_ALT_STACK => 0x6c,
        token::TO_ALT_STACK => 0x6b,
        token::DROP => 0x75,
        token::DUP => 0x76,
        token::IF => 0x63,
        token::IF_DUP => 0x73,
        token::NOT_IF => 0x64,
        token::ELSE => 0x67,
        token::END_IF => 0x68,
        token::ZERO_NOT_EQUAL => 0x92,
        token::SIZE => 0x82,
        token::SWAP => 0x7c,
        token::VERIFY => 0x69,
        token::RIPEMD160 => 0xa6,
        token::HASH160 => 0xa9,
        token::SHA256 => 0xa8,
        token::HASH256 => 0xaa,
        _ => 0,
    }
}

// The opcodes that have a form with VERIFY in it: all four of them.
#[tactic(auto, unfolding(spelling::specs::Spell::has_fused))]
fn has_fused(code: u32) -> bool
    ensures { result ≡ has_fused code }
{
    matches!(
        code,
        token::EQUAL | token::NUM_EQUAL | token::CHECK_SIG | token::CHECK_MULTI_SIG
    )
}

#[tactic(auto, unfolding(spelling::specs::Spell::fused_byte))]
fn fused_byte(code: u32) -> u8
    ensures { result ≡ fused_byte code }
{
    match code {
        token::EQUAL => 0x88,
        token::NUM_EQUAL => 0x9d,
        token::CHECK_SIG => 0xad,
        _ => 0xaf,
    }
}

// Whether an opcode and the last one are written as one.
fn fuses(last: u32, code: u32) -> bool
    ensures { result ≡ fusing last code }
{
    has_fused(last) && code == token::VERIFY
}

// An opcode.
pub fn emit_op(out: &mut [u8], pen: Pen, code: u32) -> Pen
    requires { Room (length out.old) pen (op code) }
    ensures { (out.new ≡ inked out.old pen (op code)) × (result ≡ penned pen (op code)) }
{
    let at = pen.at;
    let last = pen.last;
    if fuses(last, code) {
        out[at - 1] = fused_byte(last);
        return Pen { at, last: code };
    }
    out[at] = opcode_byte(code);
    Pen {
        at: at + 1,
        last: code,
    }
}

// How many bytes the digits of a number have, with the top bit of the last one free for the sign.
#[tactic(auto, unfolding(crate::specs::Emission::digit_count))]
fn digit_count(n: u32) -> usize
    ensures { result ≡ digit_count n }
{
    match n {
        0..=0x7f => 1,
        0x80..=0x7fff => 2,
        0x8000..=0x7fffff => 3,
        _ => 4,
    }
}

// Bytes written from a place on.
// Never inlined: of a number's digits, in an array at hand, the compiler would make a call of memcpy.
#[inline(never)]
fn put_bytes(out: &mut [u8], at: usize, bytes: &[u8])
    requires { at + length bytes.now ≤ length out.old }
    ensures { out.new ≡ put_at out.old at bytes.now }
{
    // No copy_from_slice, which calls memcpy: callers in C are promised that memset alone is called.
    for (i, b) in bytes.iter().enumerate() {
        out[at + i] = *b;
    }
}

// The shortest way to push a number: 0 is an empty push, 1 to 16 have opcodes, any other is pushed by its digits.
fn put_number(out: &mut [u8], at: usize, n: u32) -> usize
    requires { at + length (number_bytes n) ≤ length out.old }
    ensures { (out.new ≡ put_at out.old at (number_bytes n)) × (result ≡ at + length (number_bytes n)) }
{
    if n == 0 {
        out[at] = 0;
        return at + 1;
    }
    if n <= 16 {
        out[at] = (0x50 + n) as u8;
        return at + 1;
    }
    let size = digit_count(n);
    out[at] = size as u8;
    put_bytes(out, at + 1, &n.to_le_bytes()[..size]);
    at + 1 + size
}

// A number.
pub fn emit_number(out: &mut [u8], pen: Pen, n: u32) -> Pen
    requires { Room (length out.old) pen (num n) }
    ensures { (out.new ≡ inked out.old pen (num n)) × (result ≡ penned pen (num n)) }
{
    let at = put_number(out, pen.at, n);
    Pen { at, last: 0 }
}

// A push of so many bytes of the material, at most 75.
pub fn emit_push(out: &mut [u8], pen: Pen, material: &[u8], place: usize, size: usize) -> Pen
    requires { (Room (length out.old) pen (push 0 (data_at material.now place size))) × (place + size ≤ length material.now) × (size ≤ 75) }
    ensures { (out.new ≡ inked out.old pen (push 0 (data_at material.now place size))) × (result ≡ penned pen (push 0 (data_at material.now place size))) }
{
    let at = pen.at;
    out[at] = size as u8;
    put_bytes(out, at + 1, &material[place..place + size]);
    Pen {
        at: at + 1 + size,
        last: 0,
    }
}
