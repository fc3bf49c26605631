// A key for programs in other languages. Its fields: cookie, token.
ghost use Rattle.std.specs.Prelude.{refl};
ghost use Rattle.records.specs.Key.{key_codec};
ghost use Rattle.export.specs.View.{ViewDecoded, ViewEncoded};
ghost use Rattle.export.specs.Views.{key_view};

use crate::image::{self, Image};
use codec::Record;
use records::key::FenceCookieKey;
use units::{DurableFenceToken, SocketCookie};

impl Image for FenceCookieKey {
    type Of = FenceCookieKey;

    ghost slots = { key_view.slots };

    ghost numbers = { key_codec.fields };

    const LEN: usize = 16;

    ghost LEN = { 16 };

    ghost sized = { refl };

    ghost counted = { refl };

    fn of_image(image: &[u8]) -> Option<FenceCookieKey> {
        Some(FenceCookieKey {
            socket_cookie: SocketCookie(octets::get_le::<u64>(image, 0)),
            durable_fence_token: DurableFenceToken(octets::get_le::<u64>(image, 8)),
        })
    }

    fn obey_rule(self) -> bool {
        self.is_sound()
    }

    fn write(self, out: &mut [u8]) {
        Record::write(self, out);
    }

    fn show(bytes: &[u8], fields: &mut [u8]) {
        image::carry(bytes, 0, fields, 0);
        image::carry(bytes, 8, fields, 8);
    }
}

// From bytes to fields.
pub fn threadwicket_key_decode(bytes: &[u8], fields: &mut [u8]) -> u32
    ensures { ViewDecoded key_view bytes.now fields.old result fields.new }
{
    image::decode_number::<FenceCookieKey>(bytes, fields)
}

// From fields to bytes.
pub fn threadwicket_key_encode(fields: &[u8], bytes: &mut [u8]) -> u32
    ensures { ViewEncoded key_view fields.now bytes.old result bytes.new }
{
    image::encode_number::<FenceCookieKey>(fields, bytes)
}
