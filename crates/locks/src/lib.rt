// Points of the row Expression that end in a leaf without a list of keys: pk_k, a raw key hash, after, older, hash locks.
// Each takes one token and goes on by its code, as decode.rs's nested `match_token!` does, a function for each of its nested
// matches, and is named for what has been read since Expression was taken. All are the decoder's own: they ask that the token table is the lexer's.
#![tactic(auto)]

ghost use Rattle.std.specs.Prelude.{◌≡◌};
ghost use Rattle.standard.specs.Allowed as allowed;
ghost use Rattle.standard.specs.Allowed.{key_form};
ghost use Rattle.standard.specs.Rows as point;
ghost use Rattle.standard.specs.Table.{hash_kind};
ghost use Rattle.row.specs.Request.{hash_of};
ghost use Rattle.row.specs.Told.{Told, ToldOf};
ghost use Rattle.locks.specs.Leaves.{key_at, key_row, time_row};

use row::token::{
    BYTES32, BYTES33, DUP, EQUAL, HASH160, HASH256, NUM, RIPEMD160, SHA256, SIZE, VERIFY,
};
use row::{Found, Hash, Refused, Row, Tokens, ask, kind, refuse};

// The key form: segwit 33 bytes starting 02 or 03; tapscript any 32 bytes.
pub fn key_form(segwit: bool, script: &[u8], code: u32, offset: u32) -> bool
    ensures { result ≡ key_form segwit (key_at script.now code offset) }
{
    if !segwit {
        return code == BYTES32;
    }
    code == BYTES33 && matches!(script.get(offset as usize), Some(2 | 3))
}

// A key alone.
pub fn pk_k(
    segwit: bool,
    script: &[u8],
    code: u32,
    offset: u32,
    left: usize,
) -> Result<Found, Refused>
    ensures { result ≡ key_row (key_form segwit (key_at script.now code offset)) offset left }
{
    if !key_form(segwit, script, code, offset) {
        return refuse(11, left);
    }
    ask(
        Row::Leaf {
            kind: kind::PK_K,
            number: 0,
            place: offset,
            verify: false,
        },
        left,
    )
}

// Locktimes are 1 to 2,147,483,647.
fn locktime(n: u32) -> bool
    ensures { result ≡ allowed.locktime n }
{
    (1..=2147483647).contains(&n)
}

#[tactic(auto, unfolding(crate::specs::Leaves::time_row))]
fn timelock(kind: u32, n: u32, left: usize) -> Result<Found, Refused>
    ensures { result ≡ time_row kind n left }
{
    if !locktime(n) {
        return refuse(12, left);
    }
    ask(
        Row::Leaf {
            kind,
            number: n,
            place: 0,
            verify: false,
        },
        left,
    )
}

// The number of older or after, whose opcode is CHECKSEQUENCEVERIFY or CHECKLOCKTIMEVERIFY.
fn before_timelock(tokens: Tokens, kind: u32) -> Result<Found, Refused>
    ensures older { kind ≡ 7 → Told point.afterCheckSequenceVerify tokens.entry result }
    ensures after { kind ≡ 6 → Told point.afterCheckLockTimeVerify tokens.entry result }
{
    let token = tokens.next()?;
    match token.code {
        NUM => timelock(kind, token.number, token.rest.left),
        _ => token.refuse(10),
    }
}

// older: CHECKSEQUENCEVERIFY, and before it the number.
pub fn after_check_sequence_verify(tokens: Tokens) -> Result<Found, Refused>
    ensures { Told point.afterCheckSequenceVerify tokens.entry result }
{
    before_timelock(tokens, kind::OLDER)
}

// after: CHECKLOCKTIMEVERIFY, and before it the number.
pub fn after_check_lock_time_verify(tokens: Tokens) -> Result<Found, Refused>
    ensures { Told point.afterCheckLockTimeVerify tokens.entry result }
{
    before_timelock(tokens, kind::AFTER)
}

// The kind of a hash lock.
fn hash_kind(hash: Hash) -> u32
    ensures { result ≡ hash_kind (hash_of hash) }
{
    match hash {
        Hash::Sha256 => kind::SHA256,
        Hash::Hash256 => kind::HASH256,
        Hash::Ripemd160 => kind::RIPEMD160,
        Hash::Hash160 => kind::HASH160,
    }
}

// Any hash lock is SIZE 32 EQUAL VERIFY, its hash's opcode and the hash; `verify` says whether v: stands over it.
// Three parameters and no struct: seven places would build it, and each function hands it on unread.
// SIZE, its first token.
fn lock_size(tokens: Tokens, verify: bool, hash: Hash, offset: u32) -> Result<Found, Refused>
    ensures { ToldOf (point.lockSize verify (hash_of hash)) offset tokens.entry result }
{
    let token = tokens.next()?;
    match token.code {
        SIZE => token.ask(Row::Leaf {
            kind: hash_kind(hash),
            number: 0,
            place: offset,
            verify,
        }),
        _ => token.refuse(10),
    }
}

// The number 32.
fn lock_32(tokens: Tokens, verify: bool, hash: Hash, offset: u32) -> Result<Found, Refused>
    ensures { ToldOf (point.lock32 verify (hash_of hash)) offset tokens.entry result }
{
    let token = tokens.next()?;
    match token.code {
        NUM if token.number == 32 => lock_size(token.rest, verify, hash, offset),
        _ => token.refuse(10),
    }
}

// EQUAL.
fn lock_equal(tokens: Tokens, verify: bool, hash: Hash, offset: u32) -> Result<Found, Refused>
    ensures { ToldOf (point.lockEqual verify (hash_of hash)) offset tokens.entry result }
{
    let token = tokens.next()?;
    match token.code {
        EQUAL => lock_32(token.rest, verify, hash, offset),
        _ => token.refuse(10),
    }
}

// VERIFY.
fn lock_verify(tokens: Tokens, verify: bool, hash: Hash, offset: u32) -> Result<Found, Refused>
    ensures { ToldOf (point.lockVerify verify (hash_of hash)) offset tokens.entry result }
{
    let token = tokens.next()?;
    match token.code {
        VERIFY => lock_equal(token.rest, verify, hash, offset),
        _ => token.refuse(10),
    }
}

// EQUAL, or EQUAL VERIFY, and before it 32 bytes.
pub fn after_bytes32(tokens: Tokens, verify: bool, offset: u32) -> Result<Found, Refused>
    ensures { ToldOf (point.after_bytes32 verify) offset tokens.entry result }
{
    let token = tokens.next()?;
    match token.code {
        SHA256 => lock_verify(token.rest, verify, Hash::Sha256, offset),
        HASH256 => lock_verify(token.rest, verify, Hash::Hash256, offset),
        _ => token.refuse(10),
    }
}

// EQUAL, and before it 20 bytes.
pub fn after_equal_hash20(tokens: Tokens, offset: u32) -> Result<Found, Refused>
    ensures { ToldOf point.afterEqualHash20 offset tokens.entry result }
{
    let token = tokens.next()?;
    match token.code {
        RIPEMD160 => lock_verify(token.rest, false, Hash::Ripemd160, offset),
        HASH160 => lock_verify(token.rest, false, Hash::Hash160, offset),
        _ => token.refuse(10),
    }
}

// HASH160, 20 bytes, EQUAL and VERIFY: a raw key hash, or a hash lock under v:.
fn after_verify_equal_hash20_hash160(tokens: Tokens, offset: u32) -> Result<Found, Refused>
    ensures { ToldOf point.afterVerifyEqualHash20Hash160 offset tokens.entry result }
{
    let token = tokens.next()?;
    match token.code {
        DUP => token.ask(Row::Leaf {
            kind: kind::RAW_PK_H,
            number: 0,
            place: offset,
            verify: false,
        }),
        VERIFY => lock_equal(token.rest, true, Hash::Hash160, offset),
        _ => token.refuse(10),
    }
}

// EQUAL VERIFY, and before it 20 bytes.
pub fn after_verify_equal_hash20(tokens: Tokens, offset: u32) -> Result<Found, Refused>
    ensures { ToldOf point.afterVerifyEqualHash20 offset tokens.entry result }
{
    let token = tokens.next()?;
    match token.code {
        HASH160 => after_verify_equal_hash20_hash160(token.rest, offset),
        RIPEMD160 => lock_verify(token.rest, true, Hash::Ripemd160, offset),
        _ => token.refuse(10),
    }
}
