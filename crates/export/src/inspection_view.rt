// An inspection for programs in other languages. Its fields: the flag, then those of the current record, of the mutation authority and of
// the cookie value, which are zero with flag 0.
ghost use Rattle.std.specs.Prelude.{refl};
ghost use Rattle.export.specs.View.{ViewDecoded, ViewEncoded};
ghost use Rattle.export.specs.Views.{inspection_view};
ghost use Rattle.export.specs.Inner.Steps.{inspection_numbers};

use crate::image::{self, Image};
use authority::current::CurrentFields;
use authority::mutation::FenceMutationAuthority;
use codec::Record;
use inspection::FenceInspection;
use records::cookie_value::CookieValueFields;
use units::{BootNs, ControlEpoch, DurableFenceToken, SocketCookie};

// The numbers of an inspection's layout: the flag, and those of its parts.
#[derive(Clone, Copy)]
pub(crate) struct InspectionFields {
    flag: u8,
    current: CurrentFields,
    mutation: FenceMutationAuthority,
    value: CookieValueFields,
}

// What stands in the place of a cookie value with flag 0.
const NO_VALUE: CookieValueFields = CookieValueFields {
    zeros: 0,
    control: 0,
    socket_cookie: SocketCookie(0),
    durable_fence_token: DurableFenceToken(0),
    deadline_boot_ns: BootNs(0),
    control_epoch: ControlEpoch(0),
};

impl Image for InspectionFields {
    type Of = FenceInspection;

    ghost slots = { inspection_view.slots };

    ghost numbers = { inspection_numbers };

    const LEN: usize = 88;

    ghost LEN = { 88 };

    ghost sized = { refl };

    ghost counted = { refl };

    fn of_image(image: &[u8]) -> Option<InspectionFields> {
        let flag = u8::try_from(octets::get_le::<u64>(image, 0)).ok()?;
        let current = CurrentFields {
            zeros: 0,
            control: u32::try_from(octets::get_le::<u64>(image, 8)).ok()?,
            durable_fence_token: DurableFenceToken(octets::get_le::<u64>(image, 16)),
            registered_socket_cookie: SocketCookie(octets::get_le::<u64>(image, 24)),
        };
        let mutation = FenceMutationAuthority {
            generation: octets::get_le::<u64>(image, 32),
            in_flight_claim: octets::get_le::<u64>(image, 40),
        };
        let value = CookieValueFields {
            zeros: 0,
            control: u32::try_from(octets::get_le::<u64>(image, 48)).ok()?,
            socket_cookie: SocketCookie(octets::get_le::<u64>(image, 56)),
            durable_fence_token: DurableFenceToken(octets::get_le::<u64>(image, 64)),
            deadline_boot_ns: BootNs(octets::get_le::<u64>(image, 72)),
            control_epoch: ControlEpoch(octets::get_le::<u64>(image, 80)),
        };
        Some(InspectionFields {
            flag,
            current,
            mutation,
            value,
        })
    }

    #[tactic(auto, using(crate::proofs::InspectionLaws::without_entry, crate::proofs::InspectionLaws::with_entry, crate::proofs::InspectionLaws::unlisted))]
    fn obey_rule(self) -> bool {
        self.current.obey_rule()
            && self.mutation.is_sound()
            && match self.flag {
                0 => self.value == NO_VALUE,
                1 => self.value.obey_rule(),
                _ => false,
            }
    }

    fn write(self, out: &mut [u8]) {
        let current = self.current;
        let mutation = self.mutation;
        let value = self.value;
        codec::put_head(
            out,
            FenceInspection::MARK,
            FenceInspection::VERSION,
            self.flag,
        );
        octets::put_le::<u32>(out, 8, current.zeros);
        octets::put_le::<u32>(out, 12, current.control);
        octets::put_le::<u64>(out, 16, current.durable_fence_token.0);
        octets::put_le::<u64>(out, 24, current.registered_socket_cookie.0);
        octets::put_le::<u64>(out, 32, mutation.generation);
        octets::put_le::<u64>(out, 40, mutation.in_flight_claim);
        octets::put_le::<u32>(out, 48, value.zeros);
        octets::put_le::<u32>(out, 52, value.control);
        octets::put_le::<u64>(out, 56, value.socket_cookie.0);
        octets::put_le::<u64>(out, 64, value.durable_fence_token.0);
        octets::put_le::<u64>(out, 72, value.deadline_boot_ns.0);
        octets::put_le::<u64>(out, 80, value.control_epoch.0);
        octets::put_zeros(out, 88, 40);
    }

    fn show(bytes: &[u8], fields: &mut [u8]) {
        octets::put_le::<u64>(fields, 0, octets::get_u8(bytes, 6) as u64);
        image::widen(bytes, 12, fields, 8);
        image::carry(bytes, 16, fields, 16);
        image::carry(bytes, 24, fields, 24);
        image::carry(bytes, 32, fields, 32);
        image::carry(bytes, 40, fields, 40);
        image::widen(bytes, 52, fields, 48);
        image::carry(bytes, 56, fields, 56);
        image::carry(bytes, 64, fields, 64);
        image::carry(bytes, 72, fields, 72);
        image::carry(bytes, 80, fields, 80);
    }
}

// From bytes to fields.
pub fn threadwicket_inspection_decode(bytes: &[u8], fields: &mut [u8]) -> u32
    ensures { ViewDecoded inspection_view bytes.now fields.old result fields.new }
{
    image::decode_number::<InspectionFields>(bytes, fields)
}

// From fields to bytes.
pub fn threadwicket_inspection_encode(fields: &[u8], bytes: &mut [u8]) -> u32
    ensures { ViewEncoded inspection_view fields.now bytes.old result bytes.new }
{
    image::encode_number::<InspectionFields>(fields, bytes)
}
