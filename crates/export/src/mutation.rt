// The mutation authority for programs in other languages. Its fields: generation, claim.
ghost use Rattle.std.specs.Prelude.{refl};
ghost use Rattle.authority.specs.Mutation.{mutation_codec};
ghost use Rattle.export.specs.View.{ViewDecoded, ViewEncoded};
ghost use Rattle.export.specs.Views.{mutation_view};

use crate::image::{self, Image};
use authority::mutation::FenceMutationAuthority;
use codec::Record;

impl Image for FenceMutationAuthority {
    type Of = FenceMutationAuthority;

    ghost slots = { mutation_view.slots };

    ghost numbers = { mutation_codec.fields };

    const LEN: usize = 16;

    ghost LEN = { 16 };

    ghost sized = { refl };

    ghost counted = { refl };

    fn of_image(image: &[u8]) -> Option<FenceMutationAuthority> {
        Some(FenceMutationAuthority {
            generation: octets::get_le::<u64>(image, 0),
            in_flight_claim: octets::get_le::<u64>(image, 8),
        })
    }

    fn obey_rule(self) -> bool {
        self.is_sound()
    }

    fn write(self, out: &mut [u8]) {
        Record::write(self, out);
    }

    fn show(bytes: &[u8], fields: &mut [u8]) {
        image::carry(bytes, 0, fields, 0);
        image::carry(bytes, 8, fields, 8);
    }
}

// From bytes to fields.
pub fn threadwicket_mutation_decode(bytes: &[u8], fields: &mut [u8]) -> u32
    ensures { ViewDecoded mutation_view bytes.now fields.old result fields.new }
{
    image::decode_number::<FenceMutationAuthority>(bytes, fields)
}

// From fields to bytes.
pub fn threadwicket_mutation_encode(fields: &[u8], bytes: &mut [u8]) -> u32
    ensures { ViewEncoded mutation_view fields.now bytes.old result bytes.new }
{
    image::encode_number::<FenceMutationAuthority>(fields, bytes)
}
