// The token cursor: one record, lent to `next`, `peek` and `un_next`, in place of lex.rs's TokenIter. Tokens are read from
// the last to the first: so many are `left`, and the next one is the last of them. 01: three thin functions over covered ones
// on a token slice and an index; `take`, `look` and `put_back` hold a cursor and lend it, for callers who have a number.
#![tactic(auto)]

ghost use Rattle.std.specs.Prelude.{◌≡◌, ◌+◌, ◌-◌, ◌*◌, ◌≤◌, ◌<◌, ◌^◌, length};
ghost use Rattle.cursor.specs.Reading.{next_of, took_of};

#[derive(Clone, Copy)]
pub struct Cursor {
    pub left: usize,
}

// A token, as its three numbers in the table.
#[derive(Clone, Copy)]
pub struct Token {
    pub code: u32,
    pub number: u32,
    pub place: u32,
}

// The token that was taken, if any was left, and how many are left after it.
#[derive(Clone, Copy)]
pub struct Took {
    pub token: Option<Token>,
    pub left: usize,
}

// The last of the tokens left, in a table with three numbers for each.
fn last_token(tokens: &[u32], left: usize) -> Option<Token>
    requires { 3 * left ≤ length tokens.now }
    ensures { result ≡ next_of tokens.now left }
{
    if left == 0 {
        return None;
    }
    let i = 3 * (left - 1);
    Some(Token {
        code: tokens[i],
        number: tokens[i + 1],
        place: tokens[i + 2],
    })
}

// The next token is taken.
pub fn next(c: &mut Cursor, tokens: &[u32]) -> Option<Token>
    requires { 3 * c.old.left ≤ length tokens.now }
    ensures { (result ≡ next_of tokens.now c.old.left) × (c.new.left ≡ c.old.left - 1) }
{
    let left = c.left;
    c.left = left.saturating_sub(1);
    last_token(tokens, left)
}

// The next token is looked at.
pub fn peek(c: &Cursor, tokens: &[u32]) -> Option<Token>
    requires { 3 * c.now.left ≤ length tokens.now }
    ensures { result ≡ next_of tokens.now c.now.left }
{
    last_token(tokens, c.left)
}

// The token that was taken last is put back. One was taken: the table holds one more than are left.
pub fn un_next(c: &mut Cursor, tokens: &[u32])
    requires { 3 * (c.old.left + 1) ≤ length tokens.now }
    ensures { c.new.left ≡ c.old.left + 1 }
{
    c.left += 1;
}

// `next` on a cursor of one's own.
pub fn take(tokens: &[u32], left: usize) -> Took
    requires { 3 * left ≤ length tokens.now }
    ensures { result ≡ took_of (next_of tokens.now left) (left - 1) }
{
    let mut c = Cursor { left };
    let token = next(&mut c, tokens);
    Took {
        token,
        left: c.left,
    }
}

// `peek` at a cursor of one's own.
pub fn look(tokens: &[u32], left: usize) -> Option<Token>
    requires { 3 * left ≤ length tokens.now }
    ensures { result ≡ next_of tokens.now left }
{
    let c = Cursor { left };
    peek(&c, tokens)
}

// `un_next` on a cursor of one's own.
pub fn put_back(tokens: &[u32], left: usize) -> usize
    requires { 3 * (left + 1) ≤ length tokens.now }
    ensures { result ≡ left + 1 }
{
    let mut c = Cursor { left };
    un_next(&mut c, tokens);
    c.left
}
