// A text in hexadecimal, as the test programs hold their scripts.
#![tactic(auto)]

ghost use Rattle.hex_text.specs.HexText.{Unhexes};

// The bytes at the front of a text in hexadecimal, put at the front of dst; how many there are.
pub fn unhex(src: &[u8], dst: &mut [u8]) -> usize
    ensures { Unhexes src.now dst.old dst.new result }
{
    let most = dst.len().min(src.len() / 2);
    for n in 0..most {
        let (Some(high), Some(low)) = (hex_line::digit(src[2 * n]), hex_line::digit(src[2 * n + 1]))
        else {
            return n;
        };
        dst[n] = 16 * high + low;
    }
    most
}
