// Text written at a place of a lent buffer. Every function is total: what would lie past the end is dropped, and the place after it is
// counted all the same, so the same functions write a text and measure it. Each answers the place after what it wrote.
// The buffer and the place stay two parameters: a struct that held both would have to say in each contract that it still holds the same
// buffer, and `Wrote` would be said of a struct where the four public functions promise it of the bytes.
#![tactic(auto)]

ghost use Rattle.std.specs.Prelude.{◌≤◌, ◌≡◌, [], ◌∷◌, length};
ghost use Rattle.octets.specs.Octets.{put};
ghost use Rattle.text.specs.Text.{decimal, numbered, Wrote};

// One byte.
pub fn put_byte(out: &mut [u8], at: usize, byte: u8) -> usize
    ensures { Wrote out.old at (byte ∷ []) out.new result }
{
    if out.len() <= at {
        return at.saturating_add(1);
    }
    out[at] = byte;
    at + 1
}

// Some bytes, one after the other.
pub fn put_text(out: &mut [u8], at: usize, text: &[u8]) -> usize
    ensures { Wrote out.old at text.now out.new result }
{
    let end = at.saturating_add(text.len());
    // one test for two: a text that ends before the end has room, and its end was counted in full
    if end < out.len() {
        out[at..end].copy_from_slice(text);
    } else {
        octets::put_octets(out, at, text);
    }
    end
}

// Writes the digits of a number to the end of `digits`, and answers that part.
fn digits_of<'a>(digits: &'a mut [u8; 20], n: u64) -> &'a [u8]
    ensures { result.now ≡ decimal n }
{
    let mut left = n;
    for i in (0..20).rev() {
        if left < 10 {
            digits[i] = b'0' + left as u8;
            return &digits[i..];
        }
        digits[i] = b'0' + (left % 10) as u8;
        left /= 10;
    }
    digits
}

// A number in decimal.
pub fn put_decimal(out: &mut [u8], at: usize, n: u64) -> usize
    ensures { Wrote out.old at (decimal n) out.new result }
{
    if n < 10 {
        return put_byte(out, at, b'0' + n as u8);
    }
    let mut digits = [0u8; 20];
    put_text(out, at, digits_of(&mut digits, n))
}

// A line of a word and a number.
pub fn put_numbered(out: &mut [u8], at: usize, word: &[u8], n: u64) -> usize
    ensures { Wrote out.old at (numbered word.now n) out.new result }
{
    let number_at = put_text(out, at, word);
    let end_at = put_decimal(out, number_at, n);
    put_byte(out, end_at, b'\n')
}
