// The current record for programs in other languages. Its fields: control, token, cookie.
ghost use Rattle.std.specs.Prelude.{refl};
ghost use Rattle.authority.specs.Current.{current_numbers};
ghost use Rattle.export.specs.View.{ViewDecoded, ViewEncoded};
ghost use Rattle.export.specs.Views.{current_view};

use crate::image::{self, Image};
use authority::current::{CurrentFenceToken, CurrentFields};
use units::{DurableFenceToken, SocketCookie};

impl Image for CurrentFields {
    type Of = CurrentFenceToken;

    ghost slots = { current_view.slots };

    ghost numbers = { current_numbers };

    const LEN: usize = 24;

    ghost LEN = { 24 };

    ghost sized = { refl };

    ghost counted = { refl };

    fn of_image(image: &[u8]) -> Option<CurrentFields> {
        Some(CurrentFields {
            zeros: 0,
            control: u32::try_from(octets::get_le::<u64>(image, 0)).ok()?,
            durable_fence_token: DurableFenceToken(octets::get_le::<u64>(image, 8)),
            registered_socket_cookie: SocketCookie(octets::get_le::<u64>(image, 16)),
        })
    }

    fn obey_rule(self) -> bool {
        CurrentFields::obey_rule(self)
    }

    fn write(self, out: &mut [u8]) {
        CurrentFields::write(self, out);
    }

    fn show(bytes: &[u8], fields: &mut [u8]) {
        image::widen(bytes, 4, fields, 0);
        image::carry(bytes, 8, fields, 8);
        image::carry(bytes, 16, fields, 16);
    }
}

// From bytes to fields.
pub fn threadwicket_current_decode(bytes: &[u8], fields: &mut [u8]) -> u32
    ensures { ViewDecoded current_view bytes.now fields.old result fields.new }
{
    image::decode_number::<CurrentFields>(bytes, fields)
}

// From fields to bytes.
pub fn threadwicket_current_encode(fields: &[u8], bytes: &mut [u8]) -> u32
    ensures { ViewEncoded current_view fields.now bytes.old result bytes.new }
{
    image::encode_number::<CurrentFields>(fields, bytes)
}
