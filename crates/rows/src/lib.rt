// The rows of `decode`: tokens and an entry of the work list to what its row asks for. Only shared slices, and nothing is written.
// `row_of` is what the decoder's step calls. All functions are the decoder's own: they ask that the token table is the lexer's.
#![tactic(auto)]

ghost use Rattle.std.specs.Prelude.{◌≡◌, ◌<◌};
ghost use Rattle.standard.specs.Rows as point;
ghost use Rattle.standard.specs.Rows.{row_of};
ghost use Rattle.row.specs.Tokens.{InTable, lexemes_left};
ghost use Rattle.row.specs.Request.{reading_asked, entry_of, counted, reading_of};
ghost use Rattle.row.specs.Told.{Told, ToldEntry, ToldAndV};
ghost use Rattle.rows.specs.Ends.{ends_and_v};
ghost use Rattle.rows.specs.Thresh.{thresh_row};

use branches::{end_if, end_if_else, end_if_not_if};
use expressions::expression;
use row::token::{ADD, ELSE, FROM_ALT_STACK, IF, NOT_IF, SWAP, TO_ALT_STACK};
use row::{Found, NonTerm, Refused, Row, Tokens, ask, kind, refuse};

// A W expression is either from SWAP or from FROMALTSTACK.
fn w_expression(tokens: Tokens) -> Result<Found, Refused>
    ensures { Told point.inWExpression tokens.entry result }
{
    let token = tokens.next()?;
    match token.code {
        FROM_ALT_STACK => token.ask(Row::Enter3(
            NonTerm::Alt,
            NonTerm::MaybeAndV,
            NonTerm::Expression,
        )),
        _ => ask(
            Row::Enter3(NonTerm::Swap, NonTerm::MaybeAndV, NonTerm::Expression),
            token.un_next(),
        ),
    }
}

// The token of a prefix, and then its wrapper is made: SWAP and s:, or TOALTSTACK and a:.
fn prefix(tokens: Tokens, code: u32, kind: u32) -> Result<Found, Refused>
    ensures swap { code ≡ 22 → kind ≡ 13 → Told point.inSwap tokens.entry result }
    ensures alt { code ≡ 12 → kind ≡ 12 → Told point.inAlt tokens.entry result }
{
    let token = tokens.next()?;
    if token.code != code {
        return token.refuse(10);
    }
    token.ask(Row::Reduce1(kind))
}

// If, NotIf, Else, ToAltStack, Swap.
fn ends_and_v(code: u32) -> bool
    ensures { result ≡ ends_and_v code }
{
    matches!(code, IF | NOT_IF | ELSE | TO_ALT_STACK | SWAP)
}

// Whether an and_v goes on: no at the script's start and before If, NotIf, Else, ToAltStack, Swap, else yes.
#[tactic(auto, using(crate::proofs::AndVLaws::ahead_none, crate::proofs::AndVLaws::told_ahead))]
pub fn is_and_v(tokens: Tokens) -> bool
    ensures { ToldAndV tokens.entry result }
{
    tokens.peek().is_some_and(|code| !ends_and_v(code))
}

fn maybe_and_v(tokens: Tokens) -> Result<Found, Refused>
    ensures { ToldEntry NonTerm.MaybeAndV tokens.entry result }
{
    if is_and_v(tokens) {
        return ask(Row::Enter2(NonTerm::AndV, NonTerm::Expression), tokens.left);
    }
    ask(Row::Enter0, tokens.left)
}

fn and_v(tokens: Tokens) -> Result<Found, Refused>
    ensures { ToldEntry NonTerm.AndV tokens.entry result }
{
    if is_and_v(tokens) {
        return ask(Row::Enter2(NonTerm::AndV, NonTerm::MaybeAndV), tokens.left);
    }
    ask(Row::Reduce2(kind::AND_V), tokens.left)
}

// ADD, and one more child; or the first child.
fn thresh_w(tokens: Tokens, k: u32, n: u32) -> Result<Found, Refused>
    requires n_bound { n < 2147483648 }
    ensures { ToldEntry (NonTerm.ThreshW k n) tokens.entry result }
{
    let token = tokens.next()?;
    match token.code {
        ADD => token.ask(Row::Enter2(NonTerm::ThreshW { k, n: n + 1 }, NonTerm::WExpression)),
        _ => ask(
            Row::Enter2(NonTerm::ThreshE { k, n: n + 1 }, NonTerm::Expression),
            token.un_next(),
        ),
    }
}

#[tactic(auto, unfolding(crate::specs::Thresh::thresh_row))]
fn thresh_e(left: usize, k: u32, n: u32) -> Result<Found, Refused>
    ensures { result ≡ thresh_row k n left }
{
    if k < 1 || n < k {
        return refuse(13, left);
    }
    ask(Row::Thresh { k, n }, left)
}

// The row of an entry. By table and number, as run has them; what holds of them is asked here once, and every row has it in
// its type.
pub fn row_of(
    segwit: bool,
    script: &[u8],
    tokens: &[u32],
    left: usize,
    entry: NonTerm,
) -> Result<Found, Refused>
    requires in_table { InTable tokens.now left }
    requires bound { counted entry < 2147483648 }
    ensures { reading_of script.now tokens.now result ≡ reading_asked segwit (row_of segwit (entry_of entry) (lexemes_left script.now tokens.now left)) }
{
    let tokens = Tokens {
        table: tokens,
        left,
    };
    match entry {
        NonTerm::Expression => expression(segwit, script, tokens),
        NonTerm::WExpression => w_expression(tokens),
        NonTerm::Swap => prefix(tokens, SWAP, kind::SWAP),
        NonTerm::MaybeAndV => maybe_and_v(tokens),
        NonTerm::Alt => prefix(tokens, TO_ALT_STACK, kind::ALT),
        NonTerm::Check => ask(Row::Reduce1(kind::CHECK), left),
        NonTerm::DupIf => ask(Row::Reduce1(kind::DUP_IF), left),
        NonTerm::Verify => ask(Row::Reduce1(kind::VERIFY), left),
        NonTerm::NonZero => ask(Row::Reduce1(kind::NON_ZERO), left),
        NonTerm::ZeroNotEqual => ask(Row::Reduce1(kind::ZERO_NOT_EQUAL), left),
        NonTerm::AndV => and_v(tokens),
        NonTerm::AndB => ask(Row::Reduce2(kind::AND_B), left),
        NonTerm::Tern => ask(Row::Tern, left),
        NonTerm::OrB => ask(Row::Reduce2(kind::OR_B), left),
        NonTerm::OrD => ask(Row::Reduce2(kind::OR_D), left),
        NonTerm::OrC => ask(Row::Reduce2(kind::OR_C), left),
        NonTerm::ThreshW { k, n } => thresh_w(tokens, k, n),
        NonTerm::ThreshE { k, n } => thresh_e(left, k, n),
        NonTerm::EndIf => end_if(tokens),
        NonTerm::EndIfNotIf => end_if_not_if(tokens),
        NonTerm::EndIfElse => end_if_else(tokens),
    }
}
