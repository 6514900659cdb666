// The row Expression: its first token decides. Each function takes one token and goes on by its code, and is named for what has
// been read since Expression was taken. All are the decoder's own: they ask that the token table is the lexer's.
#![tactic(auto)]

ghost use Rattle.std.specs.Prelude.{◌≡◌};
ghost use Rattle.standard.specs.Rows as point;
ghost use Rattle.row.specs.Told.{Told, ToldBy};
ghost use Rattle.expressions.specs.Fragments.{fragment_row, number_row};

use locks::{
    after_bytes32, after_check_lock_time_verify, after_check_sequence_verify, after_equal_hash20,
    after_verify_equal_hash20, pk_k,
};
use multis::{after_check_multi_sig, after_num_equal};
use row::token::{
    BOOL_AND, BOOL_OR, BYTES32, BYTES33, BYTES65, CHECK_LOCK_TIME_VERIFY, CHECK_MULTI_SIG,
    CHECK_SEQUENCE_VERIFY, CHECK_SIG, END_IF, EQUAL, HASH20, NUM, NUM_EQUAL, VERIFY,
    ZERO_NOT_EQUAL,
};
use row::{Found, NonTerm, Refused, Row, Tokens, ask, kind, refuse};

// EQUAL VERIFY: a hash lock or a raw key hash, or a thresh under v:.
fn after_verify_equal(tokens: Tokens) -> Result<Found, Refused>
    ensures { Told point.afterVerifyEqual tokens.entry result }
{
    let token = tokens.next()?;
    match token.code {
        HASH20 => after_verify_equal_hash20(token.rest, token.place + 1),
        BYTES32 => after_bytes32(token.rest, true, token.place + 1),
        NUM => token.ask(Row::Enter2(
            NonTerm::Verify,
            NonTerm::ThreshW {
                k: token.number,
                n: 0,
            },
        )),
        _ => token.refuse(10),
    }
}

// VERIFY.
fn after_verify(tokens: Tokens) -> Result<Found, Refused>
    ensures { Told point.afterVerify tokens.entry result }
{
    let token = tokens.next()?;
    match token.code {
        EQUAL => after_verify_equal(token.rest),
        _ => ask(
            Row::Enter2(NonTerm::Verify, NonTerm::Expression),
            token.un_next(),
        ),
    }
}

// EQUAL: a hash lock or a thresh.
fn after_equal(tokens: Tokens) -> Result<Found, Refused>
    ensures { Told point.afterEqual tokens.entry result }
{
    let token = tokens.next()?;
    match token.code {
        BYTES32 => after_bytes32(token.rest, false, token.place + 1),
        HASH20 => after_equal_hash20(token.rest, token.place + 1),
        // No Expression is entered here: ThreshW looks for ADD.
        NUM => token.ask(Row::Enter1(NonTerm::ThreshW {
            k: token.number,
            n: 0,
        })),
        _ => token.refuse(10),
    }
}

// A number alone.
fn number_alone(n: u32, left: usize) -> Result<Found, Refused>
    ensures { result ≡ number_row n left }
{
    match n {
        0 => ask(
            Row::Leaf {
                kind: kind::FALSE,
                number: 0,
                place: 0,
                verify: false,
            },
            left,
        ),
        1 => ask(
            Row::Leaf {
                kind: kind::TRUE,
                number: 0,
                place: 0,
                verify: false,
            },
            left,
        ),
        _ => refuse(10, left),
    }
}

// The fragments whose last token only enters what they are made of.
fn fragment(code: u32, left: usize) -> Result<Found, Refused>
    ensures { result ≡ fragment_row code left }
{
    let row = match code {
        CHECK_SIG => Row::Enter2(NonTerm::Check, NonTerm::Expression),
        ZERO_NOT_EQUAL => Row::Enter2(NonTerm::ZeroNotEqual, NonTerm::Expression),
        END_IF => Row::Enter3(NonTerm::EndIf, NonTerm::MaybeAndV, NonTerm::Expression),
        BOOL_AND => Row::Enter3(NonTerm::AndB, NonTerm::Expression, NonTerm::WExpression),
        BOOL_OR => Row::Enter3(NonTerm::OrB, NonTerm::Expression, NonTerm::WExpression),
        _ => return refuse(10, left),
    };
    ask(row, left)
}

// The row of Expression.
pub fn expression(segwit: bool, script: &[u8], tokens: Tokens) -> Result<Found, Refused>
    ensures { ToldBy segwit point.inExpression script.now tokens.entry result }
{
    let token = tokens.next()?;
    match token.code {
        // An arm each: in one for all three only the codes' range is known, and the proof by the row's cases didn't close.
        BYTES33 => pk_k(segwit, script, token.code, token.place + 1, token.rest.left),
        BYTES65 => pk_k(segwit, script, token.code, token.place + 1, token.rest.left),
        BYTES32 => pk_k(segwit, script, token.code, token.place + 1, token.rest.left),
        VERIFY => after_verify(token.rest),
        CHECK_SEQUENCE_VERIFY => after_check_sequence_verify(token.rest),
        CHECK_LOCK_TIME_VERIFY => after_check_lock_time_verify(token.rest),
        EQUAL => after_equal(token.rest),
        NUM => number_alone(token.number, token.rest.left),
        CHECK_MULTI_SIG => after_check_multi_sig(segwit, script, token.rest),
        NUM_EQUAL => after_num_equal(segwit, token.rest),
        _ => fragment(token.code, token.rest.left),
    }
}
