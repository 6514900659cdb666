// What the rows of `decode` are read with: the work entries, what a row asks for, and the three functions through which alone
// a row takes, looks at and puts back tokens (each lends a cursor, crate `cursor`). All of it is the decoder's own.
#![tactic(auto)]

ghost use Rattle.std.specs.Prelude.{◌≡◌, ◌+◌, ◌*◌, ◌≤◌, length};
ghost use Rattle.row.specs.Tokens.{ahead_of};
ghost use Rattle.row.specs.Next.{IsNext};
ghost use Rattle.row.specs.Request.{asked_at, refused_at};

pub mod kind;
pub mod table;

pub use table::{Taken, Tokens};

// The codes of tokens, for the rows above.
pub use lex::token;

// decode.rs's NonTerm: an entry of the work list.
#[derive(Clone, Copy, Debug, PartialEq, Eq)]
pub enum NonTerm {
    Expression,
    WExpression,
    Swap,
    MaybeAndV,
    Alt,
    Check,
    DupIf,
    Verify,
    NonZero,
    ZeroNotEqual,
    AndV,
    AndB,
    Tern,
    OrB,
    OrD,
    OrC,
    ThreshW { k: u32, n: u32 },
    ThreshE { k: u32, n: u32 },
    // Could be or_d, or_c, or_i, d:, j:.
    EndIf,
    // Could be or_d, or_c.
    EndIfNotIf,
    // Could be or_i or and_or.
    EndIfElse,
}

// The hash of a lock.
#[derive(Clone, Copy, Debug, PartialEq, Eq)]
pub enum Hash {
    Sha256,
    Hash256,
    Ripemd160,
    Hash160,
}

// What a row asks for.
#[derive(Clone, Copy, Debug, PartialEq, Eq)]
pub enum Row {
    // Entries, in the order in which decode.rs pushes them: the last one on top.
    // A variant for each count: entries are handed out by value, and there is no heap for a list of them.
    Enter0,
    Enter1(NonTerm),
    Enter2(NonTerm, NonTerm),
    Enter3(NonTerm, NonTerm, NonTerm),
    // A leaf without keys; `verify` if a Verify is entered with it.
    Leaf {
        kind: u32,
        number: u32,
        place: u32,
        verify: bool,
    },
    // A multi or multi_a: its n keys are pushed by the tokens first, first + stride and so on.
    Keys {
        kind: u32,
        k: u32,
        n: u32,
        first: usize,
        stride: usize,
    },
    // A node of one child, of two, of three (and_or), of n (thresh).
    Reduce1(u32),
    Reduce2(u32),
    Tern,
    Thresh {
        k: u32,
        n: u32,
    },
}

// A row that was read: how many tokens are left, and what it asks for.
#[derive(Clone, Copy)]
pub struct Found {
    pub left: usize,
    pub row: Row,
}

// A row that is refused: document 01's number, and how many tokens are left.
// By 01's number, as the rows' definitions refuse: what is between here and the answer hands it on, and an enum would give
// each number a second name.
#[derive(Clone, Copy, Debug, PartialEq, Eq)]
pub struct Refused {
    pub number: u32,
    pub left: usize,
}

impl<'a> Tokens<'a> {
    // Takes a token: 9 where none is left. The cursor that is lent for it is crate `cursor`'s.
    pub fn next(self) -> Result<Taken<'a>, Refused>
        ensures { IsNext self.entry.table.now self.entry.left result }
    {
        let took = cursor::take(self.table, self.left);
        let token = took.token.ok_or(Refused { number: 9, left: 0 })?;
        // Its fields and no Token within: a row reads token.code.
        Ok(Taken {
            code: token.code,
            number: token.number,
            place: token.place,
            rest: Tokens {
                table: self.table,
                left: took.left,
            },
        })
    }

    // The code of the token that would be taken next.
    pub fn peek(self) -> Option<u32>
        ensures { result ≡ ahead_of self.entry.table.now self.entry.left }
    {
        cursor::look(self.table, self.left).map(|token| token.code)
    }
}

impl<'a> Taken<'a> {
    // The answer of a row that ends with this token.
    pub fn ask(self, row: Row) -> Result<Found, Refused>
        ensures { result ≡ asked_at row self.entry.rest.left }
    {
        ask(row, self.rest.left)
    }

    // The refusal of a row that ends with this token.
    pub fn refuse(self, number: u32) -> Result<Found, Refused>
        ensures { result ≡ refused_at number self.entry.rest.left }
    {
        refuse(number, self.rest.left)
    }

    // How many tokens are left once this one is put back.
    pub fn un_next(self) -> usize
        requires { 3 * (self.rest.left + 1) ≤ length self.rest.table.now }
        ensures { result ≡ self.entry.rest.left + 1 }
    {
        cursor::put_back(self.rest.table, self.rest.left)
    }
}

// A row's answer, with so many tokens left.
pub fn ask(row: Row, left: usize) -> Result<Found, Refused>
    ensures { result ≡ asked_at row left }
{
    Ok(Found { left, row })
}

// A row's refusal, with so many tokens left.
pub fn refuse(number: u32, left: usize) -> Result<Found, Refused>
    ensures { result ≡ refused_at number left }
{
    Err(Refused { number, left })
}
