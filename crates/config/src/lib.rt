// The configuration, 40 bytes: the protected endpoint, the root cgroup of the attachment, and the cookie map's capacity.
#![tactic(auto)]

ghost use Rattle.std.specs.Prelude.{refl, ◌≡◌};
ghost use Rattle.octets.specs.Octets.{octets_at};
ghost use Rattle.codec.specs.Answers.{Makes};
ghost use Rattle.config.specs.Config.{config, config_codec};

use codec::{Record, Refusal};
use endpoint::ProtectedEndpoint;
use units::RootCgroupId;

// The configuration, 40 bytes: the endpoint that is protected, and the root cgroup at which the hook has to be attached.
#[derive(Clone, Copy, PartialEq, Eq)]
pub struct FenceConfig {
    pub endpoint: ProtectedEndpoint,
    pub root_cgroup_id: RootCgroupId,
    pub capacity: u32,
}

// The sixteen octets of the address, read as two numbers of eight: read by `octets::array_at`, the compiler moves them in four pieces, and
// the decoder takes seven to nine instructions more.
fn address_at(s: &[u8]) -> [u8; 16]
    ensures { result ≡ octets_at s.now 24 16 }
{
    let first = octets::get_le::<u64>(s, 24);
    let second = octets::get_le::<u64>(s, 32);
    let mut address = [0u8; 16];
    octets::put_le::<u64>(&mut address, 0, first);
    octets::put_le::<u64>(&mut address, 8, second);
    address
}

impl FenceConfig {
    // "OEF1", first octet first.
    pub const MARK: u32 = 0x4f45_4631;

    // The version of the layout.
    pub const VERSION: u16 = 5;

    // The capacity that version 5 has.
    pub const CAPACITY: u32 = 4096;

    // The record of an endpoint, a root cgroup and a capacity; 2 where it is unsound.
    pub fn new(
        endpoint: ProtectedEndpoint,
        root_cgroup_id: RootCgroupId,
        capacity: u32,
    ) -> Result<FenceConfig, Refusal>
        ensures { Makes config_codec (config endpoint root_cgroup_id.0 capacity) result }
    {
        FenceConfig {
            endpoint,
            root_cgroup_id,
            capacity,
        }
        .if_sound()
    }

    // The protected endpoint.
    pub fn endpoint(self) -> ProtectedEndpoint
        ensures { result ≡ self.endpoint }
    {
        self.endpoint
    }

    // The cgroup that the hook is attached to.
    pub fn root_cgroup_id(self) -> RootCgroupId
        ensures { result ≡ self.root_cgroup_id }
    {
        self.root_cgroup_id
    }

    // The number of records that the cookie map holds.
    pub fn capacity(self) -> u32
        ensures { result ≡ self.capacity }
    {
        self.capacity
    }
}

impl Record for FenceConfig {
    ghost codec = { config_codec };

    const LEN: usize = 40;

    ghost LEN = { 40 };

    ghost sized = { refl };

    ghost counted = { λ v. refl };

    fn blank() -> FenceConfig {
        FenceConfig {
            endpoint: ProtectedEndpoint::blank(),
            root_cgroup_id: RootCgroupId(0),
            capacity: 0,
        }
    }

    // Capacity, root cgroup, and the endpoint's own rules.
    fn is_sound(self) -> bool {
        (self.capacity == FenceConfig::CAPACITY) & (self.root_cgroup_id.0 != 0)
            && self.endpoint.is_sound()
    }

    // The frame is asked first, then the parts.
    fn read(s: &[u8]) -> Result<FenceConfig, Refusal> {
        let head = codec::get_head(s);
        let zeros = octets::get_le::<u16>(s, 10);
        let framed = (head.mark == FenceConfig::MARK)
            & (head.version == FenceConfig::VERSION)
            & (head.zero == 0)
            & (zeros == 0);
        if !framed {
            return Err(Refusal::BrokenRule);
        }
        let endpoint = ProtectedEndpoint {
            family: head.byte,
            address: address_at(s),
            port: octets::get_be::<u16>(s, 8),
        };
        let capacity = octets::get_le::<u32>(s, 12);
        let root_cgroup_id = RootCgroupId(octets::get_le::<u64>(s, 16));
        FenceConfig::new(endpoint, root_cgroup_id, capacity)
    }

    fn write(self, out: &mut [u8]) {
        let endpoint = self.endpoint;
        codec::put_head(
            out,
            FenceConfig::MARK,
            FenceConfig::VERSION,
            endpoint.family,
        );
        octets::put_be::<u16>(out, 8, endpoint.port);
        octets::put_le::<u16>(out, 10, 0);
        octets::put_le::<u32>(out, 12, self.capacity);
        octets::put_le::<u64>(out, 16, self.root_cgroup_id.0);
        octets::put_octets(out, 24, &endpoint.address);
    }
}
