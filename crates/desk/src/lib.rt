// The system calls of the desk: standard input is read part by part, and what the clerk lays out is written to standard output (document 01,
// section "Program"). In a library, so that a program of the repository is one call of `run` over a list of its own.
//
// Outside the proof are the two system calls: the crate `calls` says what of them a contract can't say. All else is proved, there, in `clerk`
// and here: what a turn lays out, from the bytes that lie in the input; that every byte of a turn is crossed off, by what writes took, before
// the next turn; that the line which a part of the input leaves open is the one that the next part goes on with; that the turns for a part
// end, and end with nothing owed and nothing waiting; and that the desk stops only where a read told the end of the input, or a write that it
// had failed.
//
// After a read that fails the input ends there, so that what came before is answered; after a write that fails nothing more is written, so
// that no listing is missing between others. The exit status is 0 then too.
//
// The bytes that the desk holds, all on the stack:
//   tokens  1,040 of 3 numbers of 4 bytes   12,480
//   nodes     512 of 9 numbers of 4 bytes   18,432
//   keys      128 numbers of 4 bytes           512
//   work    1,024 numbers of 8 bytes         8,192
//   script                                     520
//   input                                    4,096
//   output                                   8,192
//   calls::tell, while a failure is told     1,536
//   in all                                  53,960, under 64 KiB (65,536)
#![tactic(auto)]

ghost use Rattle.std.specs.Prelude.{◌≡◌, ◌≤◌, ◌<◌, length, take};
ghost use Rattle.hex_line.specs.Feeding.{fed, left_by};
ghost use Rattle.clerk.specs.declared.Hand.{Hand};
ghost use Rattle.clerk.specs.Owed.{leaves, laid};
ghost use Rattle.desk.specs.Stops.{Sends, Stops};

use calls::{Ended, Failed, Part};
use clerk::Hand;
use hex_line::Line;
use reply::Tables;

// The bytes that a turn laid out, at the front of the output, written: a write that is cut short goes on.
fn write_front(rt: HostRuntime, out: &[u8], hand: Hand) -> Result<Hand, Failed>
    requires { hand.used ≤ length out.now }
    ensures { Sends result (λ (left : Hand). left ≡ laid hand hand.next 0) }
{
    let to = hand.used;
    let mut left = hand;
    // No for: it goes on until all is written.
    while left.used > 0 {
        let wrote = calls::write(rt, &out[to - left.used..to])?;
        left = clerk::written(left, wrote);
    }
    Ok(left)
}

// Turn after turn of the clerk, each written, until nothing is owed for this part of the input.
fn write_out(
    rt: HostRuntime,
    hand: Hand,
    part: &[u8],
    script: &mut [u8; 520],
    tables: &mut Tables,
    out: &mut [u8; 8192],
) -> Result<Hand, Failed>
    requires { (hand.at ≤ length part.now) × (hand.used ≡ 0) }
    ensures { Sends result (λ (left : Hand). fed left.line script.new ≡ leaves hand part.now script.old) }
{
    let mut held = clerk::turn(hand, part, script, tables, out);
    // No for: it goes on until nothing is owed.
    while held.used > 0 {
        let left = write_front(rt, out, held)?;
        held = clerk::turn(left, part, script, tables, out);
    }
    Ok(held)
}

// One part of the input, with the line that was open before it: answered and written. A part of no byte says that the input has ended.
fn answer_part(
    rt: HostRuntime,
    line: Line,
    part: Part,
    input: &[u8; 4096],
    script: &mut [u8; 520],
    tables: &mut Tables,
    out: &mut [u8; 8192],
) -> Result<Hand, Failed>
    requires { (part.n ≤ 4096) × (part.n ≤ length input.now) }
    ensures { Sends result (λ (left : Hand). 0 < part.n → fed left.line script.new ≡ left_by (fed line script.old) (take part.n input.now)) }
{
    let n = part.size();
    let hand = clerk::receive(line, n, script, tables);
    write_out(rt, hand, &input[..n], script, tables, out)
}

// Standard input, part by part to its end, with these tables. Its end is answered by the same call as a part, so that the call can't be
// dropped for the last line alone. That the end is answered before the desk stops no contract says: the stored list of `intake` does.
fn serve(
    rt: HostRuntime,
    script: &mut [u8; 520],
    tables: &mut Tables,
    out: &mut [u8; 8192],
) -> Result<Ended, Failed>
    ensures { Stops result }
{
    let mut input = [0u8; 4096];
    let mut line = Line::Nothing;
    let mut reads = calls::begin();
    // No for: it goes on until the input ends.
    loop {
        let read = calls::next(rt, &mut reads, &mut input);
        let part = match read {
            Ok(part) => part,
            Err(ended) => ended.part,
        };
        let left = answer_part(rt, line, part, &input, script, tables, out)?;
        if let Err(ended) = read {
            return Ok(ended);
        }
        line = left.line;
    }
}

// Answers standard input line by line to its end, or to a write that failed.
pub fn run(rt: HostRuntime) -> Result<Ended, Failed>
    ensures { Stops result }
{
    let mut script = [0u8; 520];
    let mut tables = Tables {
        tokens: [0; 3120],
        nodes: [0; 4608],
        keys: [0; 128],
        work: [0; 1024],
    };
    let mut out = [0u8; 8192];
    serve(rt, &mut script, &mut tables, &mut out)
}
