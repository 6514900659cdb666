// Bytes to tokens: lex.rs over one lent token table, with document 01's numbers and places.
#![tactic(auto)]

ghost use Rattle.std.specs.Prelude.{◌≡◌, ◌+◌, ◌*◌, ◌/◌, ◌≤◌, ◌<◌, length, drop};
ghost use Rattle.tables.specs.Tables.{zeros, put_at};
ghost use Rattle.lex.specs.Token.{token};
ghost use Rattle.lex.specs.Script.{placed, refusal, script_limit, lex_of, answer_of, numbers, Lexes, Fills};
ghost use Rattle.lex.specs.Room.{room_of};
ghost use Rattle.instruction.specs.Instruction.{instruction_of};

pub use instruction::token;
use instruction::{Lexed, instruction};

// The most bytes that a script may have.
pub const SCRIPT_LIMIT: usize = 10000;

// Document 01's number of a refusal, and its place in the script.
#[derive(Clone, Copy, Debug, PartialEq, Eq)]
pub struct Refused {
    pub number: u32,
    pub place: usize,
}

fn refuse(number: u32, place: usize) -> Refused
    ensures { result ≡ refusal number place }
{
    Refused { number, place }
}

// Sizes of tables that are ample for a script.
#[derive(Clone, Copy, Debug, PartialEq, Eq)]
pub struct Sizes {
    pub tokens: usize,
    pub nodes: usize,
    pub keys: usize,
    pub work: usize,
}

// The n-th token of a table.
fn put(t: &mut [u32], n: usize, code: u32, number: u32, place: u32)
    requires { 3 * n + 2 < length t.old }
    ensures { t.new ≡ put_at t.old (3 * n) (numbers (token code number place)) }
{
    let i = 3 * n;
    t[i] = code;
    t[i + 1] = number;
    t[i + 2] = place;
}

// The tokens of a script that is short enough, at the front of a cleared table. After a refusal it holds what came before.
fn fill(s: &[u8], t: &mut [u32]) -> Result<usize, Refused>
    requires { (length s.now ≤ script_limit) × (t.old ≡ zeros (length t.old)) }
    ensures { (result ≡ answer_of (lex_of (length t.old / 3) s.now)) × Fills (length t.old) (lex_of (length t.old / 3) s.now) t.new }
{
    let room = t.len() / 3;
    let mut at = 0;
    let mut n = 0;
    let mut last: u32 = 0;
    while at < s.len() {
        // No `?`, here and in `room`: a refusal gets its place, and by map_err each token would go through memory once more, a tenth
        // of `room`'s time.
        let got = match instruction(&s[at..], last) {
            Ok(got) => got,
            Err(error) => return Err(refuse(error.number(), at)),
        };
        match got {
            Lexed::One { code, size, number } => {
                if room - n < 1 {
                    return Err(refuse(8, at));
                }
                put(t, n, code, number, at as u32);
                last = code;
                n += 1;
                at += size;
            }
            Lexed::Two { code, size } => {
                if room - n < 2 {
                    return Err(refuse(8, at));
                }
                put(t, n, code, 0, at as u32);
                put(t, n + 1, token::VERIFY, 0, at as u32);
                last = token::VERIFY;
                n += 2;
                at += size;
            }
        }
    }
    Ok(n)
}

// The tokens of a script, three numbers each, at the front of a table and zeros behind; zeros throughout after a refusal.
#[tactic(auto, using(crate::proofs::FillLaws::lex_long), unfolding(crate::specs::Script::script_limit, crate::specs::Script::lex_of))]
pub fn lex(s: &[u8], t: &mut [u32]) -> Result<usize, Refused>
    ensures { Lexes s.now (length t.old) result t.new }
{
    tables::clear(t);
    if SCRIPT_LIMIT < s.len() {
        return Err(refuse(1, 0));
    }
    let answer = fill(s, t);
    if answer.is_err() {
        tables::clear(t);
    }
    answer
}

// The sizes that are ample for a script, by one scan without any table.
pub fn room(s: &[u8]) -> Result<Sizes, Refused>
    ensures { result ≡ room_of s.now }
{
    if SCRIPT_LIMIT < s.len() {
        return Err(refuse(1, 0));
    }
    let mut at = 0;
    let mut n = 0;
    let mut last: u32 = 0;
    while at < s.len() {
        let got = match instruction(&s[at..], last) {
            Ok(got) => got,
            Err(error) => return Err(refuse(error.number(), at)),
        };
        match got {
            Lexed::One { code, size, .. } => {
                last = code;
                n += 1;
                at += size;
            }
            Lexed::Two { size, .. } => {
                last = token::VERIFY;
                n += 2;
                at += size;
            }
        }
    }
    Ok(Sizes {
        tokens: n,
        nodes: 2 * n,
        keys: n,
        work: 8 * n + 2,
    })
}
