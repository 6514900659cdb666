// The codes of tokens, in the order of lex.rs's `Token`. A push of 20, 32, 33 or 65 bytes is Hash20 to Bytes65.
#![tactic(auto)]

pub const BOOL_AND: u32 = 1;

pub const BOOL_OR: u32 = 2;

pub const ADD: u32 = 3;

pub const EQUAL: u32 = 4;

pub const NUM_EQUAL: u32 = 5;

pub const CHECK_SIG: u32 = 6;

pub const CHECK_SIG_ADD: u32 = 7;

pub const CHECK_MULTI_SIG: u32 = 8;

pub const CHECK_SEQUENCE_VERIFY: u32 = 9;

pub const CHECK_LOCK_TIME_VERIFY: u32 = 10;

pub const FROM_ALT_STACK: u32 = 11;

pub const TO_ALT_STACK: u32 = 12;

pub const DROP: u32 = 13;

pub const DUP: u32 = 14;

pub const IF: u32 = 15;

pub const IF_DUP: u32 = 16;

pub const NOT_IF: u32 = 17;

pub const ELSE: u32 = 18;

pub const END_IF: u32 = 19;

pub const ZERO_NOT_EQUAL: u32 = 20;

pub const SIZE: u32 = 21;

pub const SWAP: u32 = 22;

pub const VERIFY: u32 = 23;

pub const RIPEMD160: u32 = 24;

pub const HASH160: u32 = 25;

pub const SHA256: u32 = 26;

pub const HASH256: u32 = 27;

pub const NUM: u32 = 28;

pub const HASH20: u32 = 29;

pub const BYTES32: u32 = 30;

pub const BYTES33: u32 = 31;

pub const BYTES65: u32 = 32;
