// The protected endpoint: the one UDP source address and port that a fence guards.
#![tactic(auto)]

ghost use Rattle.std.specs.Prelude.{◌≡◌, ◌++◌, replicate};
ghost use Rattle.octets.specs.Octets.{octets_at, all_zero};
ghost use Rattle.endpoint.specs.Endpoint.{usable_ipv4, usable_ipv6, link_local, ipv4_mapped, sound_endpoint, blank, made, ipv4_of, ipv6_of, matches, matches_ipv4, matches_ipv6};

use codec::Refusal;

// An IPv4 address in network order.
pub type Ipv4Address = [u8; 4];

// An IPv6 address in network order.
pub type Ipv6Address = [u8; 16];

// The Rust's enum of two cases, each with an array, as one struct: `family` is 4 or 6, and an IPv4 address stands in the first four
// bytes of `address`. The family is a number, as bytes hold it: a value of another family can be passed too, and the packet classifier has
// an answer for it.
#[derive(Clone, Copy, PartialEq, Eq)]
pub struct ProtectedEndpoint {
    pub family: u8,
    pub address: [u8; 16],
    pub port: u16,
}

// Whether an IPv4 endpoint may have the address in the first four bytes.
#[tactic(auto, unfolding(crate::specs::Endpoint::usable_ipv4))]
fn usable_ipv4(address: [u8; 16]) -> bool
    ensures { result ≡ usable_ipv4 address }
{
    !octets::is_zero(&address, 0, 4) && address[0] < 224
}

// fe80::/10.
fn is_link_local(address: Ipv6Address) -> bool
    ensures { result ≡ link_local address }
{
    address[0] == 0xfe && address[1] / 64 == 2
}

// Whether the bytes before the ff ff of an IPv4-mapped address are zero.
fn prefix_is_zero(address: Ipv6Address) -> bool
    ensures { result ≡ all_zero (octets_at address 0 10) }
{
    (octets::get_le::<u64>(&address, 0) == 0) & (octets::get_le::<u16>(&address, 8) == 0)
}

// ::ffff:0:0/96.
fn is_ipv4_mapped(address: Ipv6Address) -> bool
    ensures { result ≡ ipv4_mapped address }
{
    prefix_is_zero(address) && address[10] == 0xff && address[11] == 0xff
}

// Whether the address is ::, all zero.
fn is_unspecified(address: Ipv6Address) -> bool
    ensures { result ≡ all_zero (octets_at address 0 16) }
{
    (octets::get_le::<u64>(&address, 0) == 0) & (octets::get_le::<u64>(&address, 8) == 0)
}

// Whether an IPv6 endpoint may have this address.
#[tactic(auto, using(crate::proofs::ZeroLaws::other_prefix), unfolding(crate::specs::Endpoint::usable_ipv6))]
fn usable_ipv6(address: Ipv6Address) -> bool
    ensures { result ≡ usable_ipv6 address }
{
    if address[0] == 0xff || is_link_local(address) {
        return false;
    }
    // Neither :: nor IPv4-mapped, as most are: to ask those two alone takes a few instructions more.
    if !prefix_is_zero(address) {
        return true;
    }
    !is_unspecified(address) && !is_ipv4_mapped(address)
}

// Whether the bytes after an IPv4 address are zero.
fn spare_is_zero(address: [u8; 16]) -> bool
    ensures { result ≡ all_zero (octets_at address 4 12) }
{
    octets::is_zero(&address, 4, 12)
}

// An IPv4 address in its place, the spare bytes zero.
fn padded(address: Ipv4Address) -> [u8; 16]
    ensures { result ≡ octets_at address 0 4 ++ replicate 12 0 }
{
    // Byte by byte, which the compiler makes one move of four; with `copy_from_slice` a constructor takes half as many instructions more.
    let mut whole = [0u8; 16];
    whole[0] = address[0];
    whole[1] = address[1];
    whole[2] = address[2];
    whole[3] = address[3];
    whole
}

impl ProtectedEndpoint {
    // The family of an IPv4 endpoint.
    pub const IPV4: u8 = 4;

    // The family of an IPv6 endpoint.
    pub const IPV6: u8 = 6;

    // The all-zero record, which stands beside a refusal's number where a record is due.
    pub fn blank() -> ProtectedEndpoint
        ensures { result ≡ blank }
    {
        ProtectedEndpoint {
            family: 0,
            address: [0; 16],
            port: 0,
        }
    }

    // Whether the value is one that a constructor gives.
    #[tactic(auto, unfolding(crate::specs::Endpoint::sound_endpoint, crate::specs::Endpoint::address_usable, crate::specs::Endpoint::spare_zero))]
    pub fn is_sound(self) -> bool
        ensures { result ≡ sound_endpoint self }
    {
        let address = self.address;
        if self.port == 0 {
            return false;
        }
        match self.family {
            ProtectedEndpoint::IPV4 => usable_ipv4(address) && spare_is_zero(address),
            ProtectedEndpoint::IPV6 => usable_ipv6(address),
            _ => false,
        }
    }

    // The endpoint if it is sound, else the refusal.
    #[tactic(auto, unfolding(crate::specs::Endpoint::made))]
    fn checked(self) -> Result<ProtectedEndpoint, Refusal>
        ensures { result ≡ made self }
    {
        if self.is_sound() {
            Ok(self)
        } else {
            Err(Refusal::BrokenRule)
        }
    }

    // An IPv4 endpoint, or 2 where its address or port may not be protected.
    pub fn ipv4(address: Ipv4Address, port: u16) -> Result<ProtectedEndpoint, Refusal>
        ensures { result ≡ made (ipv4_of address port) }
    {
        ProtectedEndpoint {
            family: ProtectedEndpoint::IPV4,
            address: padded(address),
            port,
        }
        .checked()
    }

    // An IPv6 endpoint, or 2 where its address or port may not be protected.
    pub fn ipv6(address: Ipv6Address, port: u16) -> Result<ProtectedEndpoint, Refusal>
        ensures { result ≡ made (ipv6_of address port) }
    {
        ProtectedEndpoint {
            family: ProtectedEndpoint::IPV6,
            address,
            port,
        }
        .checked()
    }

    // The UDP port.
    pub fn port(self) -> u16
        ensures { result ≡ self.port }
    {
        self.port
    }

    // Whether this endpoint is the source given, of a family whose addresses have N bytes. Bytes after them are not looked at.
    #[tactic(auto, unfolding(crate::specs::Endpoint::matches))]
    fn matches<const N: usize>(self, family: u8, address: [u8; N], port: u16) -> bool
        ensures { result ≡ matches family N self address.entry port }
    {
        self.family == family && self.port == port && octets::same(&self.address, 0, &address, 0, N)
    }

    // Whether this endpoint is the IPv4 source given. The spare bytes are not looked at.
    pub fn matches_ipv4(self, address: Ipv4Address, port: u16) -> bool
        ensures { result ≡ matches_ipv4 self address port }
    {
        self.matches(ProtectedEndpoint::IPV4, address, port)
    }

    // Whether this endpoint is the IPv6 source given.
    pub fn matches_ipv6(self, address: Ipv6Address, port: u16) -> bool
        ensures { result ≡ matches_ipv6 self address port }
    {
        self.matches(ProtectedEndpoint::IPV6, address, port)
    }
}
