// The kinds of nodes: document 01, "numbered by Terminal's order from True 1 to MultiA 28"; 4, PkH, never occurs.
// They are numbers, since callers in C read them in the node table.
#![tactic(auto)]

pub const TRUE: u32 = 1;

pub const FALSE: u32 = 2;

pub const PK_K: u32 = 3;

pub const RAW_PK_H: u32 = 5;

pub const AFTER: u32 = 6;

pub const OLDER: u32 = 7;

pub const SHA256: u32 = 8;

pub const HASH256: u32 = 9;

pub const RIPEMD160: u32 = 10;

pub const HASH160: u32 = 11;

pub const ALT: u32 = 12;

pub const SWAP: u32 = 13;

pub const CHECK: u32 = 14;

pub const DUP_IF: u32 = 15;

pub const VERIFY: u32 = 16;

pub const NON_ZERO: u32 = 17;

pub const ZERO_NOT_EQUAL: u32 = 18;

pub const AND_V: u32 = 19;

pub const AND_B: u32 = 20;

pub const AND_OR: u32 = 21;

pub const OR_B: u32 = 22;

pub const OR_D: u32 = 23;

pub const OR_C: u32 = 24;

pub const OR_I: u32 = 25;

pub const THRESH: u32 = 26;

pub const MULTI: u32 = 27;

pub const MULTI_A: u32 = 28;
