// What the functions for C of the seven records share. A record's own numbers stand side by side in an image, eight octets each, without marks,
// versions and zeros; what decoding into an image answers, and encoding from one, is the same for every record.
ghost use Rattle.std.specs.Prelude.{ℕ, ◌≡◌, List, length};
ghost use Rattle.octets.specs.Octets.{octets_at, le, put, le_bytes};
ghost use Rattle.codec.specs.Layout.{size, laid};
ghost use Rattle.codec.specs.Codec.{ok};
ghost use Rattle.codec.specs.Answers.{number_told};
ghost use Rattle.export.specs.View.{Slot, wide, view_over, cleared, ViewDecoded, ViewEncoded};
ghost use Rattle.export.specs.Inner.Steps.{Shows, Given};

use codec::{Record, Refusal};

// The numbers of a record's layout, of which an image holds the record's own.
pub(crate) trait Image: Copy {
    // The record whose numbers they are.
    type Of: Record;

    // what each field of the layout holds
    ghost slots: { List Slot };

    ghost numbers: { Self → List ℕ };

    // The length of an image.
    const LEN: usize;

    ghost LEN: { ℕ };

    // The numbers that an image gives, where each fits its field.
    fn of_image(image: &[u8]) -> Option<Self>
        ensures { Given (view_over Self.Of.codec slots) numbers image.now result };

    // Whether they obey the record's rule.
    fn obey_rule(self) -> bool
        ensures { result ≡ ok Self.Of.codec (numbers self) };

    // The numbers put at the start of a record's bytes, each in its field.
    fn write(self, out: &mut [u8])
        ensures { out.new ≡ put out.old 0 (laid Self.Of.codec.layout (numbers self)) };

    // Puts the image of the record of accepted bytes at the start.
    fn show(bytes: &[u8], image: &mut [u8])
        ensures { Shows (view_over Self.Of.codec slots) bytes.now image.old image.new };

    ghost sized: { LEN ≡ size (wide slots) };

    ghost counted: { length slots ≡ length Self.Of.codec.layout };
}

// Zeros in the first n bytes of a slice that has so many.
#[tactic(auto, unfolding(crate::specs::View::cleared))]
fn clear(d: &mut [u8], n: usize)
    ensures { d.new ≡ cleared n d.old }
{
    if n <= d.len() {
        d[..n].fill(0);
    }
}

// From a record's bytes to an image. A refusal leaves zeros in the place of an image.
fn decode<I: Image>(bytes: &[u8], image: &mut [u8]) -> Result<(), Refusal>
    ensures { ViewDecoded (view_over I.Of.codec I.slots) bytes.now image.old (number_told result) image.new }
{
    if let Err(refusal) = I::Of::decode(bytes) {
        clear(image, I::LEN);
        return Err(refusal);
    }
    codec::check_room(I::LEN, image.len())?;
    I::show(bytes, image);
    Ok(())
}

// From an image to a record's bytes. The record's rule is asked of the numbers themselves.
fn encode<I: Image>(image: &[u8], bytes: &mut [u8]) -> Result<(), Refusal>
    ensures { ViewEncoded (view_over I.Of.codec I.slots) image.now bytes.old (number_told result) bytes.new }
{
    if image.len() != I::LEN {
        return Err(Refusal::WrongLength);
    }
    let Some(numbers) = I::of_image(image) else {
        return Err(Refusal::UnsoundRecord);
    };
    if !numbers.obey_rule() {
        return Err(Refusal::UnsoundRecord);
    }
    codec::check_room(<I::Of as Record>::LEN, bytes.len())?;
    numbers.write(bytes);
    Ok(())
}

// An answer's number.
fn number(answer: Result<(), Refusal>) -> u32
    ensures { result ≡ number_told answer }
{
    match answer {
        Ok(()) => 0,
        Err(refusal) => refusal.number(),
    }
}

// The number that decoding into an image is answered with.
pub(crate) fn decode_number<I: Image>(bytes: &[u8], image: &mut [u8]) -> u32
    ensures { ViewDecoded (view_over I.Of.codec I.slots) bytes.now image.old result image.new }
{
    number(decode::<I>(bytes, image))
}

// The number that encoding from an image is answered with.
pub(crate) fn encode_number<I: Image>(image: &[u8], bytes: &mut [u8]) -> u32
    ensures { ViewEncoded (view_over I.Of.codec I.slots) image.now bytes.old result bytes.new }
{
    number(encode::<I>(image, bytes))
}

// ---- numbers moved between a record's bytes and an image

// A number of eight octets, from a place of one slice to a place of another.
pub(crate) fn carry(s: &[u8], i: usize, d: &mut [u8], j: usize)
    ensures { d.new ≡ put d.old j (le_bytes 8 (le (octets_at s.now i 8))) }
{
    octets::put_le::<u64>(d, j, octets::get_le::<u64>(s, i));
}

// One of four octets as one of eight. Two functions for two widths: of a number of any width the value is known to proofs alone.
pub(crate) fn widen(s: &[u8], i: usize, d: &mut [u8], j: usize)
    ensures { d.new ≡ put d.old j (le_bytes 8 (le (octets_at s.now i 4))) }
{
    octets::put_le::<u64>(d, j, u64::from(octets::get_le::<u32>(s, i)));
}
