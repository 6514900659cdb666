// The work list of decode.rs over a lent table: one 64-bit number for each entry, the newest at the end of those in use. A
// pop writes nothing, since what lies above the newest entry is never read. Entries are numbers because callers in C lend the
// table.
#![tactic(auto)]

ghost use Rattle.std.specs.Prelude.{◌≡◌, map, ◌+◌, ◌-◌, ◌*◌, ◌/◌, ◌≤◌, ◌<◌, length, get_or};
ghost use Rattle.tables.specs.Tables.{put_at};
ghost use Rattle.work_list.specs.Work.{packed, Small, AllSmall, k_of, n_of, unpacked};

use row::NonTerm;

// A thresh's k and n above its place in NonTerm's order.
fn counts(k: u32, n: u32) -> u64
    requires { n < 134217728 }
    ensures { result ≡ 32 * k + 137438953472 * n }
{
    32 * u64::from(k) + 137438953472 * u64::from(n)
}

// An entry as a number: its place in NonTerm's order, k and n.
pub fn pack(e: NonTerm) -> u64
    requires { Small e }
    ensures { result ≡ packed e }
{
    match e {
        NonTerm::Expression => 0,
        NonTerm::WExpression => 1,
        NonTerm::Swap => 2,
        NonTerm::MaybeAndV => 3,
        NonTerm::Alt => 4,
        NonTerm::Check => 5,
        NonTerm::DupIf => 6,
        NonTerm::Verify => 7,
        NonTerm::NonZero => 8,
        NonTerm::ZeroNotEqual => 9,
        NonTerm::AndV => 10,
        NonTerm::AndB => 11,
        NonTerm::Tern => 12,
        NonTerm::OrB => 13,
        NonTerm::OrD => 14,
        NonTerm::OrC => 15,
        NonTerm::ThreshW { k, n } => 16 + counts(k, n),
        NonTerm::ThreshE { k, n } => 17 + counts(k, n),
        NonTerm::EndIf => 18,
        NonTerm::EndIfNotIf => 19,
        NonTerm::EndIfElse => 20,
    }
}

// A thresh's k.
fn k_of(number: u64) -> u32
    ensures { result ≡ k_of number }
{
    (number / 32 % 4294967296) as u32
}

// A thresh's n.
fn n_of(number: u64) -> u32
    ensures { result ≡ n_of number }
{
    (number / 137438953472) as u32
}

// The entry of a number.
#[tactic(auto, unfolding(crate::specs::Work::unpacked))]
pub fn unpack(number: u64) -> NonTerm
    ensures { result ≡ unpacked number }
{
    let place = number % 32;
    match place {
        0 => NonTerm::Expression,
        1 => NonTerm::WExpression,
        2 => NonTerm::Swap,
        3 => NonTerm::MaybeAndV,
        4 => NonTerm::Alt,
        5 => NonTerm::Check,
        6 => NonTerm::DupIf,
        7 => NonTerm::Verify,
        8 => NonTerm::NonZero,
        9 => NonTerm::ZeroNotEqual,
        10 => NonTerm::AndV,
        11 => NonTerm::AndB,
        12 => NonTerm::Tern,
        13 => NonTerm::OrB,
        14 => NonTerm::OrD,
        15 => NonTerm::OrC,
        16 => NonTerm::ThreshW {
            k: k_of(number),
            n: n_of(number),
        },
        17 => NonTerm::ThreshE {
            k: k_of(number),
            n: n_of(number),
        },
        18 => NonTerm::EndIf,
        19 => NonTerm::EndIfNotIf,
        _ => NonTerm::EndIfElse,
    }
}

// Entries above the w in use, in the order in which decode.rs pushes them: the last one on top.
pub fn enter(work: &mut [u64], w: usize, entries: &[NonTerm])
    requires { (w + length entries.now ≤ length work.old) × AllSmall entries.now }
    ensures { work.new ≡ put_at work.old w (map packed entries.now) }
{
    for (i, e) in entries.iter().enumerate() {
        work[w + i] = pack(*e);
    }
}

// The newest of the w entries in use.
pub fn take(work: &[u64], w: usize) -> NonTerm
    requires { (1 ≤ w) × (w ≤ length work.now) }
    ensures { result ≡ unpacked (get_or work.now (w - 1) 0) }
{
    unpack(work[w - 1])
}
