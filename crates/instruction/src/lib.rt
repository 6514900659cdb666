// One instruction of a script: lex.rs's table of cases, Bitcoin's minimal push rule and read_scriptint, with document 01's numbers.
#![tactic(auto)]

ghost use Rattle.std.specs.Prelude.{◌≡◌, [], ◌+◌, ◌*◌, ◌≤◌, ◌<◌, length, take, drop, get_or};
ghost use Rattle.instruction.specs.Error.{error_number};
ghost use Rattle.instruction.specs.Opcode.{op_of};
ghost use Rattle.instruction.specs.Number.{little_endian, minimal, number_of};
ghost use Rattle.instruction.specs.Push.{small, has_opcode, pushed, push_of, sized_of};
ghost use Rattle.instruction.specs.Instruction.{verify_refused, given, instruction_of};

pub mod token;

// Why an instruction is refused, by the names that lex.rs and Bitcoin's own script errors have.
#[derive(Clone, Copy, Debug, PartialEq, Eq)]
pub enum Error {
    // Bytes are missing.
    EarlyEndOfScript,
    // The push has a shorter form.
    NonMinimalPush,
    // A push of another length, or a number that is not minimal.
    InvalidInt,
    NegativeInt,
    // An opcode that lex.rs doesn't list.
    InvalidOpcode,
    // A VERIFY that has a fused form with the opcode before it.
    NonMinimalVerify,
}

impl Error {
    // 01's number.
    pub fn number(self) -> u32
        ensures { result ≡ error_number self }
    {
        match self {
            Error::EarlyEndOfScript => 2,
            Error::NonMinimalPush => 3,
            Error::InvalidInt => 4,
            Error::NegativeInt => 5,
            Error::InvalidOpcode => 6,
            Error::NonMinimalVerify => 7,
        }
    }
}

// What an opcode byte asks for.
#[derive(Clone, Copy, Debug, PartialEq, Eq)]
pub enum Op {
    // A push of so many bytes.
    Push(u32),
    // A push whose length stands in so many bytes, and the least length that needs so many.
    Sized(usize, usize),
    // A number from 1 to 16.
    Num(u32),
    // One token.
    One(u32),
    // A token, and then Verify.
    Fused(u32),
    Verify,
    // An opcode that lex.rs doesn't list.
    Unlisted,
}

// What one instruction gives: its tokens, and how many bytes it has. The size stands at one place in both cases, and the number apart
// from the code: read together, they would have to wait for two stores (five times the time a token).
#[derive(Clone, Copy, Debug, PartialEq, Eq)]
pub enum Lexed {
    One { code: u32, size: usize, number: u32 },
    // A token without a number, and then Verify.
    Two { code: u32, size: usize },
}

// Each opcode byte is decided by one table of cases.
fn opcode(b: u8) -> Op
    ensures { result ≡ op_of b }
{
    match b {
        0x4c => Op::Sized(1, 76),
        0x4d => Op::Sized(2, 256),
        0x4e => Op::Sized(4, 65536),
        0x63 => Op::One(token::IF),
        0x64 => Op::One(token::NOT_IF),
        0x67 => Op::One(token::ELSE),
        0x68 => Op::One(token::END_IF),
        0x69 => Op::Verify,
        0x6b => Op::One(token::TO_ALT_STACK),
        0x6c => Op::One(token::FROM_ALT_STACK),
        0x73 => Op::One(token::IF_DUP),
        0x75 => Op::One(token::DROP),
        0x76 => Op::One(token::DUP),
        0x7c => Op::One(token::SWAP),
        0x82 => Op::One(token::SIZE),
        0x87 => Op::One(token::EQUAL),
        0x88 => Op::Fused(token::EQUAL),
        0x92 => Op::One(token::ZERO_NOT_EQUAL),
        0x93 => Op::One(token::ADD),
        0x9a => Op::One(token::BOOL_AND),
        0x9b => Op::One(token::BOOL_OR),
        0x9c => Op::One(token::NUM_EQUAL),
        0x9d => Op::Fused(token::NUM_EQUAL),
        0xa6 => Op::One(token::RIPEMD160),
        0xa8 => Op::One(token::SHA256),
        0xa9 => Op::One(token::HASH160),
        0xaa => Op::One(token::HASH256),
        0xac => Op::One(token::CHECK_SIG),
        0xad => Op::Fused(token::CHECK_SIG),
        0xae => Op::One(token::CHECK_MULTI_SIG),
        0xaf => Op::Fused(token::CHECK_MULTI_SIG),
        0xb1 => Op::One(token::CHECK_LOCK_TIME_VERIFY),
        0xb2 => Op::One(token::CHECK_SEQUENCE_VERIFY),
        0xba => Op::One(token::CHECK_SIG_ADD),
        0x51..=0x60 => Op::Num(u32::from(b - 0x50)),
        0..=0x4b => Op::Push(u32::from(b)),
        _ => Op::Unlisted,
    }
}

// Byte i, and 0 behind the last one.
fn digit(bytes: &[u8], i: usize) -> u32
    ensures { result ≡ get_or bytes.now i 0 }
{
    bytes.get(i).map_or(0, |&b| u32::from(b))
}

// At most four bytes as a number, the lowest first.
fn value(bytes: &[u8]) -> u32
    requires { length bytes.now ≤ 4 }
    ensures { result ≡ little_endian bytes.now }
{
    digit(bytes, 0) + 256 * (digit(bytes, 1) + 256 * (digit(bytes, 2) + 256 * digit(bytes, 3)))
}

// The minimal test of read_scriptint.
#[tactic(auto, unfolding(crate::specs::Number::minimal))]
fn is_minimal(bytes: &[u8]) -> bool
    ensures { result ≡ minimal bytes.now }
{
    match bytes {
        [] => true,
        [last] => last % 128 != 0,
        [.., before, last] => last % 128 != 0 || 128 <= *before,
    }
}

// read_scriptint on at most four bytes: the minimal test, then the sign, then the value.
#[tactic(auto, unfolding(crate::specs::Number::number_of))]
fn read_scriptint(bytes: &[u8]) -> Result<u32, Error>
    requires { length bytes.now ≤ 4 }
    ensures { result ≡ number_of bytes.now }
{
    if !is_minimal(bytes) {
        return Err(Error::InvalidInt);
    }
    if let Some(&last) = bytes.last() {
        if 128 <= last {
            return Err(Error::NegativeInt);
        }
    }
    Ok(value(bytes))
}

// A byte that has an opcode of its own as a number: 1 to 16, and 0x81 for -1.
#[tactic(auto, unfolding(crate::specs::Push::small))]
fn is_small(b: u8) -> bool
    ensures { result ≡ small b }
{
    matches!(b, 1..=16 | 0x81)
}

// One token, of an instruction of so many bytes.
fn one(code: u32, size: usize) -> Result<Lexed, Error>
    ensures { result ≡ Ok (Lexed.One code size 0) }
{
    Ok(Lexed::One {
        code,
        size,
        number: 0,
    })
}

// The token of a push, by its length. The instruction has `size` bytes.
#[tactic(auto, unfolding(crate::specs::Push::pushed))]
fn push_token(bytes: &[u8], size: usize) -> Result<Lexed, Error>
    ensures { result ≡ pushed bytes.now (length bytes.now) size }
{
    match bytes.len() {
        20 => one(token::HASH20, size),
        32 => one(token::BYTES32, size),
        33 => one(token::BYTES33, size),
        65 => one(token::BYTES65, size),
        0..=4 => Ok(Lexed::One {
            code: token::NUM,
            size,
            number: read_scriptint(bytes)?,
        }),
        _ => Err(Error::InvalidInt),
    }
}

// A one-byte push of a byte that has an opcode of its own.
#[tactic(auto, unfolding(crate::specs::Push::has_opcode, crate::specs::Push::small))]
fn has_opcode(rest: &[u8], head: usize, n: usize) -> bool
    ensures { result ≡ has_opcode rest.now head n }
{
    n == 1 && rest.get(head).is_some_and(|&b| is_small(b))
}

// A push of n bytes behind a head of so many bytes.
#[tactic(auto, unfolding(crate::specs::Push::push_of))]
fn push(rest: &[u8], head: usize, n: usize) -> Result<Lexed, Error>
    requires { head ≤ length rest.now }
    ensures { result ≡ push_of rest.now head n }
{
    if has_opcode(rest, head, n) {
        return Err(Error::NonMinimalPush);
    }
    if rest.len() - head < n {
        return Err(Error::EarlyEndOfScript);
    }
    push_token(&rest[head..head + n], head + n)
}

// A push whose length stands in `width` bytes behind the opcode. It has 76 bytes at the least, and no token has so many.
#[tactic(auto, unfolding(crate::specs::Push::sized_of, crate::specs::Push::push_of, crate::specs::Push::has_opcode, crate::specs::Push::pushed))]
fn sized(rest: &[u8], width: usize, least: usize) -> Result<Lexed, Error>
    requires { (width ≤ 4) × (76 ≤ least) }
    ensures { result ≡ sized_of rest.now width least }
{
    let head = 1 + width;
    if rest.len() < head {
        return Err(Error::EarlyEndOfScript);
    }
    let n = value(&rest[1..head]) as usize;
    if n < least {
        return Err(Error::NonMinimalPush);
    }
    if rest.len() - head < n {
        return Err(Error::EarlyEndOfScript);
    }
    Err(Error::InvalidInt)
}

// VERIFY after a token with the code `last`. It is refused where the two have a fused form.
#[tactic(auto, unfolding(crate::specs::Instruction::verify_refused))]
fn verify(last: u32) -> Result<Lexed, Error>
    ensures { result ≡ given Op.Verify [] last }
{
    match last {
        token::EQUAL | token::CHECK_SIG | token::CHECK_MULTI_SIG => Err(Error::NonMinimalVerify),
        _ => one(token::VERIFY, 1),
    }
}

// The instruction at the front of the rest of a script, after a token with the code `last`. Of an empty rest its bytes are missing.
#[tactic(auto, using(crate::proofs::OpcodeLaws::width_narrow, crate::proofs::InstructionLaws::none_there), unfolding(crate::specs::Instruction::instruction_of, crate::specs::Opcode::ranged))]
pub fn instruction(rest: &[u8], last: u32) -> Result<Lexed, Error>
    ensures { result ≡ instruction_of rest.now last }
{
    let [byte, ..] = rest else {
        return Err(Error::EarlyEndOfScript);
    };
    match opcode(*byte) {
        Op::Push(n) => push(rest, 1, n as usize),
        Op::Sized(width, least) => sized(rest, width, least),
        Op::Num(number) => Ok(Lexed::One {
            code: token::NUM,
            size: 1,
            number,
        }),
        Op::One(code) => one(code, 1),
        Op::Fused(code) => Ok(Lexed::Two { code, size: 1 }),
        Op::Verify => verify(last),
        Op::Unlisted => Err(Error::InvalidOpcode),
    }
}
