// A record that stands as a part of another, from a place on.
ghost use Rattle.std.specs.Prelude.{◌≡◌};
ghost use Rattle.octets.specs.Octets.{put};
ghost use Rattle.codec.specs.Layout.{fields_at};
ghost use Rattle.codec.specs.Codec.{bytes};
ghost use Rattle.codec.specs.Answers.{Builds};

use codec::{Record, Refusal};

// The record of the fields from a place on, where they obey its rule; octets past the end read as 0.
pub(crate) fn read_at<R: Record>(s: &[u8], at: usize) -> Result<R, Refusal>
    ensures { Builds R.codec (fields_at R.codec.layout s.now at) result }
{
    R::read(&s[at.min(s.len())..])
}

// The record's fields, put from a place on; octets past the end are dropped.
pub(crate) fn write_at<R: Record>(part: R, out: &mut [u8], at: usize)
    ensures { out.new ≡ put out.old at (bytes R.codec part) }
{
    if at <= out.len() {
        part.write(&mut out[at..]);
    }
}
