// The rows of ENDIF: EndIf, EndIfNotIf and EndIfElse, which are d:, j:, or_c, or_d, or_i and and_or. Each function takes one token and
// goes on by its code. All are the decoder's own: they ask that the token table is the lexer's.
#![tactic(auto)]

ghost use Rattle.standard.specs.Rows as point;
ghost use Rattle.row.specs.Told.{Told};

use row::token::{DUP, ELSE, IF, IF_DUP, NOT_IF, SIZE, ZERO_NOT_EQUAL};
use row::{Found, NonTerm, Refused, Row, Tokens, ask, kind};

// ZERONOTEQUAL IF .. ENDIF, and before it SIZE: j:.
fn after_if_zero_not_equal(tokens: Tokens) -> Result<Found, Refused>
    ensures { Told point.afterIfZeroNotEqual tokens.entry result }
{
    let token = tokens.next()?;
    match token.code {
        SIZE => token.ask(Row::Enter1(NonTerm::NonZero)),
        _ => token.refuse(10),
    }
}

// IF .. ENDIF: d: or j:.
fn after_if(tokens: Tokens) -> Result<Found, Refused>
    ensures { Told point.afterIf tokens.entry result }
{
    let token = tokens.next()?;
    match token.code {
        DUP => token.ask(Row::Enter1(NonTerm::DupIf)),
        ZERO_NOT_EQUAL => after_if_zero_not_equal(token.rest),
        _ => token.refuse(10),
    }
}

pub fn end_if(tokens: Tokens) -> Result<Found, Refused>
    ensures { Told point.inEndIf tokens.entry result }
{
    let token = tokens.next()?;
    match token.code {
        ELSE => token.ask(Row::Enter3(NonTerm::EndIfElse, NonTerm::MaybeAndV, NonTerm::Expression)),
        IF => after_if(token.rest),
        NOT_IF => token.ask(Row::Enter1(NonTerm::EndIfNotIf)),
        _ => token.refuse(10),
    }
}

// NOTIF .. ENDIF: or_d after IFDUP, else or_c.
pub fn end_if_not_if(tokens: Tokens) -> Result<Found, Refused>
    ensures { Told point.inEndIfNotIf tokens.entry result }
{
    let token = tokens.next()?;
    match token.code {
        IF_DUP => token.ask(Row::Enter2(NonTerm::OrD, NonTerm::Expression)),
        _ => ask(
            Row::Enter2(NonTerm::OrC, NonTerm::Expression),
            token.un_next(),
        ),
    }
}

// ELSE .. ENDIF: or_i after IF, and_or after NOTIF.
pub fn end_if_else(tokens: Tokens) -> Result<Found, Refused>
    ensures { Told point.inEndIfElse tokens.entry result }
{
    let token = tokens.next()?;
    match token.code {
        IF => token.ask(Row::Reduce2(kind::OR_I)),
        NOT_IF => token.ask(Row::Enter2(NonTerm::Tern, NonTerm::Expression)),
        _ => token.refuse(10),
    }
}
