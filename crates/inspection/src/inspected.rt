// The inner entry of an inspection, where there is one: a flag, and at 48 a cookie value or zeros in its place.
ghost use Rattle.std.specs.Prelude.{◌≡◌};
ghost use Rattle.octets.specs.Octets.{put};
ghost use Rattle.codec.specs.Layout.{fields_at, laid};
ghost use Rattle.codec.specs.Answers.{Builds};
ghost use Rattle.records.specs.CookieValue.{cookie_value_codec};
ghost use Rattle.inspection.specs.Inspected.{present_flag, part_fields, sound_part};
ghost use Rattle.inspection.specs.Inner.Steps.{part_codec};

use crate::parts::{read_at, write_at};
use codec::{Record, Refusal};
use records::cookie_value::FenceCookieValue;

// 1 where there is an entry.
pub fn flag(entry: Option<FenceCookieValue>) -> u8
    ensures { result ≡ present_flag entry }
{
    u8::from(entry.is_some())
}

// Whether there is no entry, or a sound one.
pub fn is_sound(entry: Option<FenceCookieValue>) -> bool
    ensures { result ≡ sound_part entry }
{
    entry.is_none_or(|value| value.is_sound())
}

// The entry at its place in an inspection's bytes, under a flag that is 0 or 1; 2 where there are no zeros under 0.
pub(crate) fn read(flag: u8, s: &[u8]) -> Result<Option<FenceCookieValue>, Refusal>
    ensures { Builds (part_codec flag) (fields_at cookie_value_codec.layout s.now 48) result }
{
    if flag != 0 {
        return Ok(Some(read_at(s, 48)?));
    }
    if octets::is_zero_run(s, 48, FenceCookieValue::LEN) {
        Ok(None)
    } else {
        Err(Refusal::BrokenRule)
    }
}

// The entry's fields, or zeros in their place, put at its place in an inspection's bytes.
pub(crate) fn write(entry: Option<FenceCookieValue>, out: &mut [u8])
    ensures { out.new ≡ put out.old 48 (laid cookie_value_codec.layout (part_fields entry)) }
{
    match entry {
        None => octets::put_zeros(out, 48, FenceCookieValue::LEN),
        Some(value) => write_at(value, out, 48),
    }
}
