// A cookie value for programs in other languages. Its fields: control, cookie, token, deadline, epoch.
ghost use Rattle.std.specs.Prelude.{refl};
ghost use Rattle.records.specs.CookieValue.{cookie_value_numbers};
ghost use Rattle.export.specs.View.{ViewDecoded, ViewEncoded};
ghost use Rattle.export.specs.Views.{cookie_value_view};

use crate::image::{self, Image};
use records::cookie_value::{CookieValueFields, FenceCookieValue};
use units::{BootNs, ControlEpoch, DurableFenceToken, SocketCookie};

impl Image for CookieValueFields {
    type Of = FenceCookieValue;

    ghost slots = { cookie_value_view.slots };

    ghost numbers = { cookie_value_numbers };

    const LEN: usize = 40;

    ghost LEN = { 40 };

    ghost sized = { refl };

    ghost counted = { refl };

    fn of_image(image: &[u8]) -> Option<CookieValueFields> {
        Some(CookieValueFields {
            zeros: 0,
            control: u32::try_from(octets::get_le::<u64>(image, 0)).ok()?,
            socket_cookie: SocketCookie(octets::get_le::<u64>(image, 8)),
            durable_fence_token: DurableFenceToken(octets::get_le::<u64>(image, 16)),
            deadline_boot_ns: BootNs(octets::get_le::<u64>(image, 24)),
            control_epoch: ControlEpoch(octets::get_le::<u64>(image, 32)),
        })
    }

    fn obey_rule(self) -> bool {
        CookieValueFields::obey_rule(self)
    }

    fn write(self, out: &mut [u8]) {
        CookieValueFields::write(self, out);
    }

    fn show(bytes: &[u8], fields: &mut [u8]) {
        image::widen(bytes, 4, fields, 0);
        image::carry(bytes, 8, fields, 8);
        image::carry(bytes, 16, fields, 16);
        image::carry(bytes, 24, fields, 24);
        image::carry(bytes, 32, fields, 32);
    }
}

// From bytes to fields.
pub fn threadwicket_cookie_value_decode(bytes: &[u8], fields: &mut [u8]) -> u32
    ensures { ViewDecoded cookie_value_view bytes.now fields.old result fields.new }
{
    image::decode_number::<CookieValueFields>(bytes, fields)
}

// From fields to bytes.
pub fn threadwicket_cookie_value_encode(fields: &[u8], bytes: &mut [u8]) -> u32
    ensures { ViewEncoded cookie_value_view fields.now bytes.old result bytes.new }
{
    image::encode_number::<CookieValueFields>(fields, bytes)
}
