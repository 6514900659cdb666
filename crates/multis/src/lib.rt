// Points of the row Expression that end in a multi or a multi_a. The keys stay where they are: a row hands on the first
// key's token, how many there are, and the stride from one to the next. All functions are the decoder's own: they ask that the token
// table is the lexer's.
#![tactic(auto)]

ghost use Rattle.std.specs.Prelude.{◌≡◌, false, [], ◌+◌, ◌≤◌, ◌<◌};
ghost use Rattle.standard.specs.Allowed.{multi_key, multi_count};
ghost use Rattle.standard.specs.Rows as point;
ghost use Rattle.row.specs.Tokens.{lexemes_left, ahead_of};
ghost use Rattle.row.specs.Request.{reading_of};
ghost use Rattle.row.specs.Told.{row_from, ToldIn, ToldBy};
ghost use Rattle.locks.specs.Leaves.{key_at};
ghost use Rattle.multis.specs.Keys.{tested, form_refusal, key_refusal, multi_row, ToldMulti, is_check_sig_add, added_refusal, IsAdded, multi_a_row, ToldMultiA, ToldTested};

use locks::key_form;
use row::token::{BYTES32, BYTES33, BYTES65, CHECK_SIG, CHECK_SIG_ADD, NUM};
use row::{Found, Refused, Row, Taken, Tokens, ask, kind, refuse};

// A multi's k, of n keys from the token `first` on.
#[tactic(auto, unfolding(crate::specs::Keys::multi_row))]
fn multi_k(k: u32, n: u32, first: usize, left: usize) -> Result<Found, Refused>
    ensures { result ≡ multi_row k n first left }
{
    if k < 1 || n < k {
        return refuse(13, left);
    }
    ask(
        Row::Keys {
            kind: kind::MULTI,
            k,
            n,
            first,
            stride: 1,
        },
        left,
    )
}

// A multi's k, before its n keys.
fn multi_threshold(tokens: Tokens, n: u32) -> Result<Found, Refused>
    requires le_n { (1 ≤ n) × (n ≤ 20) }
    ensures { ToldMulti tokens.entry n result }
{
    let token = tokens.next()?;
    match token.code {
        NUM => multi_k(token.number, n, tokens.left, token.rest.left),
        _ => token.refuse(10),
    }
}

// The key form in a multi: 11 unless it is segwit's, in segwit.
fn multi_form(segwit: bool, script: &[u8], token: Taken) -> Result<(), Refused>
    ensures { result ≡ form_refusal (multi_key segwit (key_at script.now token.entry.code (token.entry.place + 1))) token.entry.rest.left }
{
    if segwit && key_form(segwit, script, token.code, token.place + 1) {
        return Ok(());
    }
    Err(Refused {
        number: 11,
        left: token.rest.left,
    })
}

// A key of a multi: 10 unless it is a push of 33 or 65 bytes.
#[tactic(auto, unfolding(crate::specs::Keys::key_refusal))]
fn multi_key(segwit: bool, script: &[u8], token: Taken) -> Result<(), Refused>
    ensures { result ≡ key_refusal segwit script.now token.entry }
{
    match token.code {
        BYTES33 | BYTES65 => multi_form(segwit, script, token),
        _ => Err(Refused {
            number: 10,
            left: token.rest.left,
        }),
    }
}

// A multi's n keys, the last one first.
fn multi_keys(segwit: bool, script: &[u8], from: Tokens, n: u32) -> Result<Found, Refused>
    requires le_n { (1 ≤ n) × (n ≤ 20) }
    ensures { ToldBy segwit (point.multi_keys n []) script.now from.entry result }
{
    let mut tokens = from;
    for _ in 0..n {
        let token = tokens.next()?;
        multi_key(segwit, script, token)?;
        tokens = token.rest;
    }
    multi_threshold(tokens, n)
}

// A multi's n, tested before its keys.
fn multi_count(segwit: bool, script: &[u8], tokens: Tokens, n: u32) -> Result<Found, Refused>
    ensures { reading_of script.now tokens.entry.table.now result ≡ tested (multi_count n) (row_from segwit (point.multi_keys n []) script.now tokens.entry.table.now tokens.entry.left) (lexemes_left script.now tokens.entry.table.now tokens.entry.left) }
{
    if n < 1 || 20 < n {
        return refuse(13, tokens.left);
    }
    multi_keys(segwit, script, tokens, n)
}

// CHECKMULTISIG, and before it n.
pub fn after_check_multi_sig(segwit: bool, script: &[u8], tokens: Tokens) -> Result<Found, Refused>
    ensures { ToldBy segwit point.afterCheckMultiSig script.now tokens.entry result }
{
    let token = tokens.next()?;
    match token.code {
        NUM => multi_count(segwit, script, token.rest, token.number),
        _ => token.refuse(10),
    }
}

// A multi_a's k, tested against its n keys, which stand from the token `left` on, every second.
#[tactic(auto, unfolding(crate::specs::Keys::multi_a_row))]
fn multi_a_k(k: u32, n: u32, left: usize) -> Result<Found, Refused>
    ensures { result ≡ multi_a_row k n left }
{
    if n < k || 999 < n {
        return refuse(13, left);
    }
    ask(
        Row::Keys {
            kind: kind::MULTI_A,
            k,
            n,
            first: left,
            stride: 2,
        },
        left,
    )
}

// CHECKSIG, and before it a multi_a's first key. The bound stands in three contracts: a struct for one
// number that is handed on is no plainer.
fn after_check_sig(segwit: bool, tokens: Tokens, k: u32, n: u32) -> Result<Found, Refused>
    requires n_bound { (n < 2147483648) × (1 ≤ k) × (k ≤ 999) }
    ensures { ToldMultiA point.afterCheckSig segwit tokens.entry (tokens.entry.left + 1) k n result }
{
    let token = tokens.next()?;
    match token.code {
        BYTES32 => {
            if segwit {
                return token.refuse(11);
            }
            multi_a_k(k, n + 1, token.rest.left)
        }
        _ => token.refuse(10),
    }
}

// "Last key must be with a CheckSig": what stands before the run of CHECKSIGADD keys.
fn multi_a_last(segwit: bool, tokens: Tokens, k: u32, n: u32) -> Result<Found, Refused>
    requires n_bound { (n < 2147483648) × (1 ≤ k) × (k ≤ 999) }
    requires left_value { is_check_sig_add (ahead_of tokens.table.now tokens.left) ≡ false }
    ensures { ToldMultiA point.multiAKeys segwit tokens.entry tokens.entry.left k n result }
{
    let token = tokens.next()?;
    match token.code {
        CHECK_SIG => after_check_sig(segwit, token.rest, k, n),
        _ => token.refuse(10),
    }
}

// Whether CHECKSIGADD is the next token.
fn check_sig_add_ahead(tokens: Tokens) -> bool
    ensures { result ≡ is_check_sig_add (ahead_of tokens.entry.table.now tokens.entry.left) }
{
    tokens.peek() == Some(CHECK_SIG_ADD)
}

// A key of a multi_a: 10 unless it is a push of 32 bytes, 11 in segwit.
#[tactic(auto, unfolding(crate::specs::Keys::added_refusal))]
fn multi_a_key(segwit: bool, token: Taken) -> Result<(), Refused>
    ensures { result ≡ added_refusal segwit token.entry.code token.entry.rest.left }
{
    let left = token.rest.left;
    if token.code != BYTES32 {
        return Err(Refused { number: 10, left });
    }
    if segwit {
        return Err(Refused { number: 11, left });
    }
    Ok(())
}

// CHECKSIGADD, which was looked at, and before it a key: the tokens before it.
fn added_key(segwit: bool, tokens: Tokens<'_>) -> Result<Tokens<'_>, Refused>
    ensures { IsAdded segwit tokens.entry.table.now tokens.entry.left result }
{
    let added = tokens.next()?;
    let key = added.rest.next()?;
    multi_a_key(segwit, key)?;
    Ok(key.rest)
}

// A multi_a's keys, the last one first. 01 names this form: the nested loop is left by the outer label on a refusal, and
// yields the count of keys by break at the first token that isn't CHECKSIGADD. The outer loop ends in its first turn.
fn multi_a_keys(segwit: bool, from: Tokens, k: u32) -> Result<Found, Refused>
    requires le_k { (1 ≤ k) × (k ≤ 999) }
    ensures { ToldIn segwit (point.multiAKeys k []) from.entry result }
{
    'row: loop {
        let mut tokens = from;
        let mut n = 0;
        let count = 'keys: loop {
            if !check_sig_add_ahead(tokens) {
                break 'keys n;
            }
            match added_key(segwit, tokens) {
                Ok(rest) => tokens = rest,
                Err(refused) => break 'row Err(refused),
            }
            n += 1;
        };
        break 'row multi_a_last(segwit, tokens, k, count);
    }
}

// A multi_a's k, tested before its keys.
fn multi_a_count(segwit: bool, tokens: Tokens, k: u32) -> Result<Found, Refused>
    ensures { ToldTested segwit tokens.entry k result }
{
    if k < 1 || 999 < k {
        return refuse(13, tokens.left);
    }
    multi_a_keys(segwit, tokens, k)
}

// NUMEQUAL, and before it k.
pub fn after_num_equal(segwit: bool, tokens: Tokens) -> Result<Found, Refused>
    ensures { ToldIn segwit point.afterNumEqual tokens.entry result }
{
    let token = tokens.next()?;
    match token.code {
        NUM => multi_a_count(segwit, token.rest, token.number),
        _ => token.refuse(10),
    }
}
