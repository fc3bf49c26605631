// What the records share: why something is refused, what it is to be a record with a codec, and the head of mark, version, octet and zero.
#![tactic(auto)]

ghost use Rattle.std.specs.Prelude.{ℕ, ◌≡◌, length};
ghost use Rattle.octets.specs.Octets.{put};
ghost use Rattle.codec.specs.Layout.{size, fields_at, laid};
ghost use Rattle.codec.specs.Codec.{Codec, room_answer, sound, bytes};
ghost use Rattle.codec.specs.Answers.{refusal_number, number_told, Builds, Makes, Decodes, Encodes};
ghost use Rattle.codec.specs.Head.{head_layout, head_fields, head_numbers};

use std::error::Error;
use std::fmt;

// Why something is refused.
#[derive(Clone, Copy, Debug, PartialEq, Eq, Hash)]
pub enum Refusal {
    // The bytes are not of the record's length.
    WrongLength,
    // The bytes, or a constructor's arguments, break the record's rule.
    BrokenRule,
    // The record to encode is unsound.
    UnsoundRecord,
    // The output is shorter than what is to be written.
    NoRoom,
}

impl Refusal {
    // The number that is given back, by which programs in other languages know the refusal.
    pub fn number(self) -> u32
        ensures { result ≡ refusal_number self }
    {
        match self {
            Refusal::WrongLength => 1,
            Refusal::BrokenRule => 2,
            Refusal::UnsoundRecord => 3,
            Refusal::NoRoom => 4,
        }
    }
}

impl fmt::Display for Refusal {
    fn fmt<W: fmt::Write>(&self, f: &mut fmt::Formatter<W>) -> fmt::Result {
        f.write_str(match self {
            Refusal::WrongLength => "the length is not the record's",
            Refusal::BrokenRule => "the record's rule is broken",
            Refusal::UnsoundRecord => "the record is unsound",
            Refusal::NoRoom => "there is too little room",
        })
    }
}

impl Error for Refusal {}

// The head of a record: mark, version, an octet of the record's own, and the zero after it.
#[derive(Clone, Copy, PartialEq, Eq)]
pub struct Head {
    pub mark: u32,
    pub version: u16,
    pub byte: u8,
    pub zero: u8,
}

// Whether `len` bytes have room: 4 where they have not.
pub fn check_room(len: usize, room: usize) -> Result<(), Refusal>
    ensures { number_told result ≡ room_answer 0 len room }
{
    if len <= room {
        Ok(())
    } else {
        Err(Refusal::NoRoom)
    }
}

// A record of fixed length, by what its bytes mean. What an implementation gives is its length, its rule, and how its fields are read
// and written; decoding and encoding are the same for all.
pub trait Record: Copy {
    ghost codec: { Codec Self };

    // The length of the record's bytes.
    const LEN: usize;

    ghost LEN: { ℕ };

    // The all-zero record, which stands for one that was refused.
    fn blank() -> Self
        ensures { result ≡ codec.blank };

    // Whether the decoder gives this record for some bytes.
    fn is_sound(self) -> bool
        ensures { result ≡ sound codec self };

    // The record of the fields at the start of a slice, where they obey its rule; octets past the end read as 0.
    fn read(s: &[u8]) -> Result<Self, Refusal>
        ensures { Builds codec (fields_at codec.layout s.now 0) result };

    // The record's fields, put at the start of a slice, for whatever holds the record as a part; octets past the end are dropped. It
    // does not ask whether the record is sound.
    fn write(self, out: &mut [u8])
        ensures { out.new ≡ put out.old 0 (bytes codec self) };

    // The record of its bytes: 1 for another length, 2 where they break its rule.
    fn decode(s: &[u8]) -> Result<Self, Refusal>
        ensures { Decodes codec s.now result }
    {
        if s.len() != Self::LEN {
            return Err(Refusal::WrongLength);
        }
        Self::read(s)
    }

    // The record itself, or 2 where it is unsound.
    fn if_sound(self) -> Result<Self, Refusal>
        ensures { Makes codec self result }
    {
        if self.is_sound() {
            Ok(self)
        } else {
            Err(Refusal::BrokenRule)
        }
    }

    // Puts the record's bytes at the start of `out`: 3 where it is unsound, 4 where there is too little room, and then nothing is put.
    fn encode(self, out: &mut [u8]) -> Result<(), Refusal>
        ensures { Encodes codec self out.old result out.new }
    {
        if !self.is_sound() {
            return Err(Refusal::UnsoundRecord);
        }
        check_room(Self::LEN, out.len())?;
        self.write(out);
        Ok(())
    }

    // The length is the layout's, and there is a number for each field.
    ghost sized: { LEN ≡ size codec.layout };

    ghost counted: { (v : Self) → length (codec.fields v) ≡ length codec.layout };
}

// The head at the start of a slice. Octets past its end read as 0.
pub fn get_head(s: &[u8]) -> Head
    ensures { head_numbers result ≡ fields_at head_layout s.now 0 }
{
    Head {
        mark: octets::get_be::<u32>(s, 0),
        version: octets::get_le::<u16>(s, 4),
        byte: octets::get_u8(s, 6),
        zero: octets::get_u8(s, 7),
    }
}

// A head at the start of a slice, with its zero. Octets that would lie past its end are dropped.
pub fn put_head(out: &mut [u8], mark: u32, version: u16, byte: u8)
    ensures { out.new ≡ put out.old 0 (laid head_layout (head_fields mark version byte)) }
{
    octets::put_be::<u32>(out, 0, mark);
    octets::put_le::<u16>(out, 4, version);
    octets::put_u8(out, 6, byte);
    octets::put_u8(out, 7, 0);
}
