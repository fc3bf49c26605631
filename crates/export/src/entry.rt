// An entry for programs in other languages. Its fields: control, token, deadline, epoch.
ghost use Rattle.std.specs.Prelude.{refl};
ghost use Rattle.records.specs.Entry.{entry_numbers};
ghost use Rattle.export.specs.View.{ViewDecoded, ViewEncoded};
ghost use Rattle.export.specs.Views.{entry_view};

use crate::image::{self, Image};
use records::entry::{EntryFields, FenceEntry};
use units::{BootNs, ControlEpoch, DurableFenceToken};

impl Image for EntryFields {
    type Of = FenceEntry;

    ghost slots = { entry_view.slots };

    ghost numbers = { entry_numbers };

    const LEN: usize = 32;

    ghost LEN = { 32 };

    ghost sized = { refl };

    ghost counted = { refl };

    fn of_image(image: &[u8]) -> Option<EntryFields> {
        Some(EntryFields {
            zeros: 0,
            control: u32::try_from(octets::get_le::<u64>(image, 0)).ok()?,
            durable_fence_token: DurableFenceToken(octets::get_le::<u64>(image, 8)),
            deadline_boot_ns: BootNs(octets::get_le::<u64>(image, 16)),
            control_epoch: ControlEpoch(octets::get_le::<u64>(image, 24)),
        })
    }

    fn obey_rule(self) -> bool {
        EntryFields::obey_rule(self)
    }

    fn write(self, out: &mut [u8]) {
        EntryFields::write(self, out);
    }

    fn show(bytes: &[u8], fields: &mut [u8]) {
        image::widen(bytes, 4, fields, 0);
        image::carry(bytes, 8, fields, 8);
        image::carry(bytes, 16, fields, 16);
        image::carry(bytes, 24, fields, 24);
    }
}

// From bytes to fields.
pub fn threadwicket_entry_decode(bytes: &[u8], fields: &mut [u8]) -> u32
    ensures { ViewDecoded entry_view bytes.now fields.old result fields.new }
{
    image::decode_number::<EntryFields>(bytes, fields)
}

// From fields to bytes.
pub fn threadwicket_entry_encode(fields: &[u8], bytes: &mut [u8]) -> u32
    ensures { ViewEncoded entry_view fields.now bytes.old result bytes.new }
{
    image::encode_number::<EntryFields>(fields, bytes)
}
