// What a line of hexadecimal means, read byte by byte, however long the line is: document 01, section "Program".
#![tactic(auto)]

ghost use Rattle.std.specs.Prelude.{◌≡◌, ◌+◌, ◌*◌, ◌%◌, ◌<◌, IfSome};
ghost use Rattle.hex_line.specs.Digits.{digit_in};
ghost use Rattle.hex_line.specs.Meant.{number_of};
ghost use Rattle.hex_line.specs.Feeding.{fed, step, stopped, line_fed, ended, untouched};

// The most script bytes that a line may have.
pub const SCRIPT_BYTES: usize = 520;

// How far a line has been read. The script bytes themselves are in a buffer that the caller lends.
#[derive(Clone, Copy)]
pub enum Line {
    // Not a byte yet.
    Nothing,
    // One digit, the first of the kind.
    HalfKind(u8),
    // An even number of digits: the kind, and so many script bytes; 521 says that there are more than 520. (A variant for that would need two
    // more, for its digits: no plainer.)
    Whole { kind: u8, size: usize },
    // The same, and the first digit of one byte more.
    Half { kind: u8, size: usize, high: u8 },
    // A byte that is no hexadecimal digit was met.
    NotHex,
}

// A script to be read, so many bytes at the buffer's front.
#[derive(Clone, Copy)]
pub struct Script {
    pub kind: u32,
    pub size: usize,
}

// Why a line is no script to be read.
#[derive(Clone, Copy, Debug, PartialEq, Eq)]
pub enum Refusal {
    // It isn't hexadecimal, or ends in the middle of a byte, or before the kind.
    NotHex,
    // There is no such kind.
    NoKind,
    // There are more than 520 script bytes.
    TooLong,
}

impl Refusal {
    // Document 01's number of the refusal.
    pub fn number(self) -> u32
        ensures { result ≡ number_of self }
    {
        match self {
            Refusal::NotHex => 23,
            Refusal::NoKind => 20,
            Refusal::TooLong => 1,
        }
    }
}

// The value of a hexadecimal digit of either case; nothing for any other byte.
#[tactic(auto, unfolding(crate::specs::Digits::digit_of))]
pub fn digit(b: u8) -> Option<u8>
    ensures value { result ≡ digit_in b }
    ensures below_16 { IfSome result (λ d. d < 16) }
{
    match b {
        b'0'..=b'9' => Some(b - 48),
        b'a'..=b'f' => Some(b - 87),
        b'A'..=b'F' => Some(b - 55),
        _ => None,
    }
}

// The byte of two digits. The remainder keeps the sum in a byte, whatever a caller holds in a `Line`.
fn pair(high: u8, low: u8) -> u8
    ensures { result ≡ (16 * high + low) % 256 }
{
    ((16 * u32::from(high) + u32::from(low)) % 256) as u8
}

// One byte more of a line. Nothing is stored past 520 script bytes.
#[tactic(auto, unfolding(crate::specs::Feeding::step, crate::specs::Feeding::digit_fed))]
pub fn feed(line: Line, byte: u8, script: &mut [u8; 520]) -> Line
    ensures { fed result script.new ≡ step byte (fed line script.old) }
{
    let Some(low) = digit(byte) else {
        return Line::NotHex;
    };
    match line {
        Line::Nothing => Line::HalfKind(low),
        Line::HalfKind(high) => Line::Whole {
            kind: pair(high, low),
            size: 0,
        },
        Line::Whole { kind, size } => Line::Half {
            kind,
            size,
            high: low,
        },
        Line::Half { kind, size, high } => {
            if size < SCRIPT_BYTES {
                script[size] = pair(high, low);
                Line::Whole {
                    kind,
                    size: size + 1,
                }
            } else {
                Line::Whole { kind, size: 521 }
            }
        }
        Line::NotHex => Line::NotHex,
    }
}

// How far a line has been read, and where in the input the reading stopped.
#[derive(Clone, Copy)]
pub struct Stop {
    pub line: Line,
    pub at: usize,
}

// The bytes of an input from `from` on, up to a line feed, which isn't fed, or up to the input's end.
pub fn feed_line(line: Line, input: &[u8], from: usize, script: &mut [u8; 520]) -> Stop
    ensures { stopped (fed result.line script.new) result.at ≡ line_fed input.now from (fed line script.old) }
{
    let mut read = line;
    for at in from..input.len() {
        let byte = input[at];
        if byte == b'\n' {
            return Stop { line: read, at };
        }
        read = feed(read, byte, script);
    }
    let at = from.max(input.len());
    Stop { line: read, at }
}

// What the line means, once it has ended.
#[tactic(auto, unfolding(crate::specs::Feeding::ended))]
pub fn end(line: Line) -> Result<Script, Refusal>
    ensures { result ≡ ended line }
{
    match line {
        Line::Whole { kind, .. } if 1 < kind => Err(Refusal::NoKind),
        Line::Whole { size, .. } if SCRIPT_BYTES < size => Err(Refusal::TooLong),
        Line::Whole { kind, size } => Ok(Script {
            kind: u32::from(kind),
            size,
        }),
        _ => Err(Refusal::NotHex),
    }
}

// Whether no byte of the line has been fed: at the end of the input, this is no line.
pub fn is_nothing(line: Line) -> bool
    ensures { result ≡ untouched line }
{
    matches!(line, Line::Nothing)
}
