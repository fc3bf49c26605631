// The configuration for programs in other languages. Its fields: family, port, capacity, root cgroup, and the sixteen bytes of the address.
ghost use Rattle.std.specs.Prelude.{refl, ◌≡◌};
ghost use Rattle.octets.specs.Octets.{octets_at};
ghost use Rattle.config.specs.Config.{config_codec};
ghost use Rattle.export.specs.View.{ViewDecoded, ViewEncoded};
ghost use Rattle.export.specs.Views.{config_view};

use crate::image::{self, Image};
use codec::Record;
use config::FenceConfig;
use endpoint::ProtectedEndpoint;
use units::RootCgroupId;

// The sixteen octets of the address, read as two numbers of eight, as in `config`: read by `octets::array_at`, the compiler moves them in four
// pieces, and the encoder takes thirteen to sixteen instructions more.
fn address_at(image: &[u8]) -> [u8; 16]
    ensures { result ≡ octets_at image.now 32 16 }
{
    let first = octets::get_le::<u64>(image, 32);
    let second = octets::get_le::<u64>(image, 40);
    let mut address = [0u8; 16];
    octets::put_le::<u64>(&mut address, 0, first);
    octets::put_le::<u64>(&mut address, 8, second);
    address
}

impl Image for FenceConfig {
    type Of = FenceConfig;

    ghost slots = { config_view.slots };

    ghost numbers = { config_codec.fields };

    const LEN: usize = 48;

    ghost LEN = { 48 };

    ghost sized = { refl };

    ghost counted = { refl };

    fn of_image(image: &[u8]) -> Option<FenceConfig> {
        let endpoint = ProtectedEndpoint {
            family: u8::try_from(octets::get_le::<u64>(image, 0)).ok()?,
            address: address_at(image),
            port: u16::try_from(octets::get_le::<u64>(image, 8)).ok()?,
        };
        Some(FenceConfig {
            endpoint,
            root_cgroup_id: RootCgroupId(octets::get_le::<u64>(image, 24)),
            capacity: u32::try_from(octets::get_le::<u64>(image, 16)).ok()?,
        })
    }

    fn obey_rule(self) -> bool {
        self.is_sound()
    }

    fn write(self, out: &mut [u8]) {
        Record::write(self, out);
    }

    fn show(bytes: &[u8], fields: &mut [u8]) {
        octets::put_le::<u64>(fields, 0, octets::get_u8(bytes, 6) as u64);
        octets::put_le::<u64>(fields, 8, octets::get_be::<u16>(bytes, 8) as u64);
        image::widen(bytes, 12, fields, 16);
        image::carry(bytes, 16, fields, 24);
        image::carry(bytes, 24, fields, 32);
        image::carry(bytes, 32, fields, 40);
    }
}

// From bytes to fields.
pub fn threadwicket_config_decode(bytes: &[u8], fields: &mut [u8]) -> u32
    ensures { ViewDecoded config_view bytes.now fields.old result fields.new }
{
    image::decode_number::<FenceConfig>(bytes, fields)
}

// From fields to bytes.
pub fn threadwicket_config_encode(fields: &[u8], bytes: &mut [u8]) -> u32
    ensures { ViewEncoded config_view fields.now bytes.old result bytes.new }
{
    image::encode_number::<FenceConfig>(fields, bytes)
}
