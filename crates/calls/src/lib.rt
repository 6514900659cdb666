// The two system calls of the desk: standard input is read, standard output is written.
//
// These are outside the proof. Of each a contract can say how many bytes it says that it moved, and no more:
//   that `next` leaves the next bytes of standard input at the front of the lent input, and answers an end only at the end of it;
//   that `write` writes the first bytes of those it is lent, as many as it says.
// But what they answer can't be made up: no other crate can make a `Part` or a `Wrote`, since their fields are private to this one. So a
// caller whose contract asks for an end of the input, or for a write that failed, has met one.
//
// A read or a write that a signal interrupts is tried again. One that fails is told on standard error with the system's reason.
#![tactic(auto)]

ghost use Rattle.std.specs.Prelude.{◌≡◌, ◌≤◌, ◌<◌, length, IfOk, IfErr};
ghost use Rattle.calls.specs.Reads.{reads_left};

use arrayvec::ArrayString;
use std::fmt::Write;
use std::io;
use std::io::Read;

// How many reads may still follow: none behind the end of the input. A proved loop has to end, and nothing says that an input does: so reads
// are counted down, from a number that no run uses up.
#[derive(Drop)]
pub struct Reads {
    left: u64,
}

// What a read gave: so many bytes, at the front of the lent input.
#[derive(Clone, Copy)]
pub struct Part {
    n: usize,
}

// The input has ended, at a part of no byte: none was left, or the read failed. It holds that part, and no other crate comes by a part of
// no byte but in here: so no end can be made up.
#[derive(Clone, Copy)]
pub struct Ended {
    pub part: Part,
}

// What a write took: so many of the bytes that it was lent.
#[derive(Clone, Copy)]
pub struct Wrote {
    n: usize,
}

// A write failed: it took no byte. It holds what the write took, and no other crate comes by a write of no byte but in here: so no failure
// can be made up.
#[derive(Clone, Copy)]
pub struct Failed {
    pub wrote: Wrote,
}

// Before the first read.
pub fn begin() -> Reads
    ensures { reads_left result ≡ 18446744073709551615 }
{
    Reads { left: u64::MAX }
}

impl Part {
    pub fn size(self) -> usize
        ensures { result ≡ self.n }
    {
        self.n
    }
}

impl Wrote {
    pub fn taken(self) -> usize
        ensures { result ≡ self.n }
    {
        self.n
    }
}

// Tells on standard error what failed and the system's reason, without the number that the library puts behind it.
fn tell(rt: HostRuntime, failed: &str, error: io::Error) {
    let mut text = ArrayString::<256>::new();
    let _whole = write!(text, "{error}");
    let reason = text.as_str().split(" (os error ").next().unwrap_or("");
    let _told = eprintln!(rt; "{failed}: {reason}");
}

// The part of standard input behind the last one: as many bytes as one read gives.
pub fn next(rt: HostRuntime, reads: &mut Reads, input: &mut [u8; 4096]) -> Result<Part, Ended>
    ensures some { IfOk result (λ part. (0 < part.n) × (part.n ≤ 4096) × (part.n ≤ length input.new) × (reads_left reads.new < reads_left reads.old)) }
    ensures none { IfErr result (λ ended. (ended.part.n ≡ 0) × (reads_left reads.new ≡ 0)) }
{
    let mut stdin = rt.stdin();
    // no `for` over a range: the count goes on with the next call
    while reads.left > 0 {
        reads.left -= 1;
        match stdin.read(input) {
            Ok(0) => break,
            Ok(n) => return Ok(Part { n }),
            Err(error) => {
                if error.kind() != io::ErrorKind::Interrupted {
                    tell(rt, "a read failed, and the input ends here", error);
                    break;
                }
            }
        }
    }
    reads.left = 0;
    let part = Part { n: 0 };
    Err(Ended { part })
}

// A write has failed, for this reason of the system's.
fn failure(rt: HostRuntime, error: io::Error) -> Failed
    ensures { result.wrote.n ≡ 0 }
{
    tell(rt, "a write failed, and the listings end here", error);
    let wrote = Wrote { n: 0 };
    Failed { wrote }
}

// One write of these bytes to standard output, which may take only some of them. One that takes none has failed.
pub fn write(rt: HostRuntime, bytes: &[u8]) -> Result<Wrote, Failed>
    ensures some { IfOk result (λ wrote. (0 < wrote.n) × (wrote.n ≤ length bytes.now)) }
    ensures none { IfErr result (λ failed. failed.wrote.n ≡ 0) }
{
    for _ in 0..u64::MAX {
        match rt.stdout().write_some(bytes) {
            Ok(0) => break,
            Ok(n) => return Ok(Wrote { n }),
            Err(error) => {
                if error.kind() != io::ErrorKind::Interrupted {
                    return Err(failure(rt, error));
                }
            }
        }
    }
    Err(failure(rt, io::Error::from(io::ErrorKind::WriteZero)))
}
