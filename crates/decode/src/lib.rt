// The reader that intake calls: a script lexed, decoded (crate `run`), and the tables left as document 01 has them.
#![tactic(auto)]

ghost use Rattle.std.specs.Prelude.{◌≡◌, ◌*◌, ◌/◌, ◌≤◌, length};
ghost use Rattle.tables.specs.Tables.{zeros};
ghost use Rattle.lex.specs.Script.{lex_of, Lexes};
ghost use Rattle.standard.specs.Outcome.{lexed, outcome_of};
ghost use Rattle.perform.specs.View.{Behind};
ghost use Rattle.decode.specs.Read.{answer_of, lengths_of, outcome_at, refused_answer, place_in};

use writes::Stop;

// What the reader answers: document 01's number and reason, 0 where it accepts; the place; and how many tokens, steps,
// nodes and keys there are.
// The C interface: number 0 where a Result would say Ok.
#[repr(C)]
#[derive(Clone, Copy)]
pub struct Answer {
    pub number: u32,
    pub reason: u32,
    pub place: usize,
    pub tokens: usize,
    pub steps: usize,
    pub nodes: usize,
    pub keys: usize,
}

// In Answer's order; a struct for them would be Answer.
fn refused(number: u32, reason: u32, place: usize, tokens: usize, steps: usize) -> Answer
    ensures { answer_of result ≡ refused_answer number reason place tokens steps }
{
    Answer {
        number,
        reason,
        place,
        tokens,
        steps,
        nodes: 0,
        keys: 0,
    }
}

// The place of the token that a refusal is about; 9 and 19 are about none.
fn place_of(tokens: &[u32], count: usize, stop: Stop) -> usize
    requires { 3 * count ≤ length tokens.now }
    ensures { result ≡ place_in tokens.now count stop.number stop.left }
{
    match stop.number {
        9 | 19 => 0,
        _ if count <= stop.left => 0,
        _ => tokens[3 * stop.left + 2] as usize,
    }
}

// Clears the front of a table that is clear behind it.
fn wipe(t: &mut [u32], n: usize)
    requires { (n ≤ length t.old) × Behind t.old n }
    ensures { t.new ≡ zeros (length t.old) }
{
    t[..n].fill(0);
}

// The tokens of a script that lexes, decoded. The node table and the key table are clear. The count stands beside the table: the
// tokens are a part of it, but what lies behind them is cleared with it.
fn decoded(
    segwit: bool,
    script: &[u8],
    tokens: &mut [u32],
    count: usize,
    nodes: &mut [u32],
    keys: &mut [u32],
    work: &mut [u64],
) -> Answer
    requires lexes { Lexes script.now (length tokens.old) (Ok count) tokens.old }
    requires nodes_value { (nodes.old ≡ zeros (length nodes.old)) × (keys.old ≡ zeros (length keys.old)) }
    ensures { outcome_at result tokens.new nodes.new keys.new work.new ≡ lexed segwit (lengths_of tokens.old nodes.old keys.old work.old) script.now (lex_of (length tokens.old / 3) script.now) }
{
    let ran = run::run(segwit, script, tokens, count, nodes, keys, work);
    work.fill(0); // All of it: neither the run nor who lent the table leaves zeros anywhere.
    match ran {
        Ok(ran) => Answer {
            number: 0,
            reason: 0,
            place: 0,
            tokens: count,
            steps: ran.steps,
            nodes: ran.nodes,
            keys: ran.keys,
        },
        Err(halted) => {
            let stop = halted.stop;
            let place = place_of(tokens, count, stop);
            wipe(tokens, 3 * count);
            wipe(nodes, 9 * halted.ran.nodes);
            wipe(keys, halted.ran.keys);
            refused(stop.number, stop.reason, place, count, halted.ran.steps)
        }
    }
}

// Reads a script: its kind (0 segwit, 1 tapscript), its bytes, and four lent tables in; the answer out. The tables end as
// document 01 has them, whatever they held before.
pub fn read(
    kind: u32,
    script: &[u8],
    tokens: &mut [u32],
    nodes: &mut [u32],
    keys: &mut [u32],
    work: &mut [u64],
) -> Answer
    ensures { outcome_at result tokens.new nodes.new keys.new work.new ≡ outcome_of kind script.now (lengths_of tokens.old nodes.old keys.old work.old) }
{
    nodes.fill(0);
    keys.fill(0);
    if 1 < kind {
        tokens.fill(0);
        work.fill(0);
        return refused(20, 0, 0, 0, 0);
    }
    match lex::lex(script, tokens) {
        Ok(count) => decoded(kind == 0, script, tokens, count, nodes, keys, work),
        Err(error) => {
            work.fill(0);
            refused(error.number, 0, error.place, 0, 0)
        }
    }
}
