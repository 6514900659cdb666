// What every row function is lent: the tokens left, and a token that was taken.
#![tactic(auto)]

ghost use Rattle.std.specs.Prelude.{◌<◌};
ghost use Rattle.row.specs.Tokens.{InTable};

// The tokens left in the lexer's table: the last of them is taken first.
#[derive(Clone, Copy)]
pub struct Tokens<'a> {
    pub table: &'a [u32],
    pub left: usize,
    ghost in_table: { InTable table.now left },
}

// The next token, and the tokens left once it is taken.
#[derive(Clone, Copy)]
pub struct Taken<'a> {
    pub code: u32,
    pub number: u32,
    pub place: u32,
    pub rest: Tokens<'a>,
    ghost low: { place < 2147483648 },
}
