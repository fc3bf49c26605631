// The classifier of packets by their UDP source: whether a packet that leaves the host comes from the protected endpoint.
//
// A packet begins at its network header. Each test stands in the order of document 01, and each field is read where that order
// comes to it, after the test of the packet's length: the readers' own tests then cost nothing.
#![tactic(auto)]

ghost use Rattle.std.specs.Prelude.{◌+◌, ◌*◌, ◌<◌, ◌≤◌, ◌≡◌, cond, ◌||◌, eqb, ltb};
ghost use Rattle.octets.specs.Octets.{octets_at, same_octets};
ghost use Rattle.packet.specs.Rfc791.{source as source4};
ghost use Rattle.packet.specs.Rfc8200.{source as source6, length_byte};
ghost use Rattle.packet.specs.Answers.{disposition_of, disposition_number, disposition_numbered, answer_of};
ghost use Rattle.packet.specs.Inner.Steps.{class_number, outcome_of, Checked, Walked};
ghost use Rattle.packet.specs.Reading.{unrelated, indeterminate, stop, sort_of, udp_of, pass_of, counted_of, fragment_of, step_of, walk_of, ipv4_of, ipv6_of, known, classify_of};

use endpoint::ProtectedEndpoint;
use std::ops::ControlFlow;

// What a packet proves of its source.
#[derive(Clone, Copy, Debug, PartialEq, Eq, Hash)]
pub enum PacketEndpointDisposition {
    // The packet is proven to use the protected UDP source.
    Protected,
    // The packet is understood well enough to prove that it does not.
    Unrelated,
    // A packet that is cut or malformed, or whose chain of headers is too long, proves neither.
    Indeterminate,
}

impl PacketEndpointDisposition {
    // The disposition's number, by which programs in other languages know it.
    pub fn number(self) -> u8
        ensures { result ≡ disposition_number (disposition_of self) }
    {
        match self {
            PacketEndpointDisposition::Protected => 0,
            PacketEndpointDisposition::Unrelated => 1,
            PacketEndpointDisposition::Indeterminate => 2,
        }
    }
}

// The disposition that has a number; a number that none has is taken for Indeterminate's.
impl From<u8> for PacketEndpointDisposition {
    ghost from_gives = { λ n d. disposition_of d ≡ disposition_numbered n };

    fn from(number: u8) -> Self {
        match number {
            0 => PacketEndpointDisposition::Protected,
            1 => PacketEndpointDisposition::Unrelated,
            _ => PacketEndpointDisposition::Indeterminate,
        }
    }
}

// What reading a packet gives: the disposition, and the number of IPv6 extension headers passed on the way.
#[derive(Clone, Copy, Debug, PartialEq, Eq, Hash)]
pub struct PacketReading {
    pub disposition: PacketEndpointDisposition,
    pub headers: u8,
}

// What a next-header value calls for: the port test, Unrelated, one of three length rules, or Indeterminate.
#[derive(Clone, Copy, Debug, PartialEq, Eq, Hash)]
enum HeaderClass {
    Udp,
    NotUdp,
    Options,
    Authentication,
    Fragment,
    Other,
}

const IPV4_MIN_HEADER_LEN: usize = 20;

const IPV4_PROTOCOL_UDP: u8 = 17;

// The reserved flag, MF and a fragment offset all leave the UDP source in doubt; DF does not.
const IPV4_AMBIGUOUS_FRAGMENT_MASK: u16 = 0xbfff;

const IPV6_HEADER_LEN: usize = 40;

const IPV6_FRAGMENT_HEADER_LEN: usize = 8;

// At most so many extension headers are passed.
const MAX_IPV6_EXTENSION_HEADERS: u8 = 4;

const UDP_HEADER_LEN: usize = 8;

// The answer before the walk, and of every IPv4 packet: no header is passed.
fn stopped(disposition: PacketEndpointDisposition) -> PacketReading
    ensures { answer_of result ≡ stop 0 (disposition_of disposition) }
{
    PacketReading {
        disposition,
        headers: 0,
    }
}

// ---- the sorting of headers

// The sorting of the next-header value.
#[tactic(auto, unfolding(crate::specs::Reading::sort_of))]
fn sort(next: u8) -> HeaderClass
    ensures { class_number result ≡ sort_of next }
{
    match next {
        // UDP
        17 => HeaderClass::Udp,
        // TCP, ESP, ICMPv6, no next header
        6 | 50 | 58 | 59 => HeaderClass::NotUdp,
        // hop-by-hop options, routing, destination options
        0 | 43 | 60 => HeaderClass::Options,
        51 => HeaderClass::Authentication,
        44 => HeaderClass::Fragment,
        // An unknown value may be an extension header of the future.
        _ => HeaderClass::Other,
    }
}

// ---- the readers of headers

// A place in the chain of headers: the value that names the header there, and where it begins.
#[derive(Clone, Copy, Debug, PartialEq, Eq, Hash)]
struct Cursor {
    next: u8,
    at: usize,
}

// Reads the headers of a packet that ends at `end`, and looks for the port. Reading breaks off with what the packet proves, or goes on with
// what was read.
#[derive(Clone, Copy)]
struct Reader<'a> {
    packet: &'a [u8],
    end: usize,
    port: u16,
}

impl Reader<'_> {
    // Goes on where `len` bytes from `at` on do not pass the end.
    fn room(&self, at: usize, len: usize) -> ControlFlow<PacketEndpointDisposition>
        ensures { Checked (ltb self.now.end (at + len)) result }
    {
        if at <= self.end && len <= self.end - at {
            ControlFlow::Continue(())
        } else {
            ControlFlow::Break(PacketEndpointDisposition::Indeterminate)
        }
    }

    // The UDP header at `at`: the source port decides. It is always compiled into both readers: left a call, it takes 25 instructions more.
    #[inline(always)]
    #[tactic(auto, unfolding(crate::specs::Reading::udp_of))]
    fn udp(&self, at: usize) -> PacketEndpointDisposition
        ensures { disposition_of result ≡ udp_of self.now.packet.now self.now.port self.now.end at }
    {
        match self.room(at, UDP_HEADER_LEN) {
            ControlFlow::Break(disposition) => disposition,
            ControlFlow::Continue(()) if octets::get_be::<u16>(self.packet, at) == self.port => {
                PacketEndpointDisposition::Protected
            }
            ControlFlow::Continue(()) => PacketEndpointDisposition::Unrelated,
        }
    }

    // Goes on where an extension header can be entered: there is an allowance, and its first `len` bytes do not pass the end.
    fn enter(&self, at: usize, allowance: u8, len: usize) -> ControlFlow<PacketEndpointDisposition>
        ensures { Checked (eqb allowance 0 || ltb self.now.end (at + len)) result }
    {
        if allowance == 0 {
            return ControlFlow::Break(PacketEndpointDisposition::Indeterminate);
        }
        self.room(at, len)
    }

    // On past the header of `len` bytes at `at`, unless it passes the end.
    #[tactic(auto, unfolding(crate::specs::Reading::pass_of))]
    fn pass(&self, at: usize, len: usize) -> ControlFlow<PacketEndpointDisposition, Cursor>
        ensures { outcome_of at result ≡ pass_of self.now.packet.now self.now.end at len }
    {
        self.room(at, len)?;
        ControlFlow::Continue(Cursor {
            next: octets::get_u8(self.packet, at),
            at: at + len,
        })
    }

    // A header whose second byte gives its length in units of `unit` bytes, of which `uncounted` are not counted.
    #[tactic(auto, unfolding(crate::specs::Reading::counted_of))]
    fn counted(
        &self,
        at: usize,
        allowance: u8,
        unit: usize,
        uncounted: usize,
    ) -> ControlFlow<PacketEndpointDisposition, Cursor>
        requires { (unit ≤ 8) × (uncounted ≤ 2) }
        ensures { outcome_of at result ≡ counted_of self.now.packet.now self.now.end allowance at (unit * (length_byte self.now.packet.now at + uncounted)) }
    {
        self.enter(at, allowance, 2)?;
        let n = octets::get_u8(self.packet, at + 1) as usize;
        self.pass(at, unit * (n + uncounted))
    }

    // A Fragment header. Its offset, its reserved bits and M leave the UDP source in doubt unless all are zero.
    #[tactic(auto, unfolding(crate::specs::Reading::fragment_of))]
    fn fragment(&self, at: usize, allowance: u8) -> ControlFlow<PacketEndpointDisposition, Cursor>
        ensures { outcome_of at result ≡ fragment_of self.now.packet.now self.now.end allowance at }
    {
        self.enter(at, allowance, IPV6_FRAGMENT_HEADER_LEN)?;
        if octets::get_be::<u16>(self.packet, at + 2) != 0 {
            return ControlFlow::Break(PacketEndpointDisposition::Indeterminate);
        }
        self.pass(at, IPV6_FRAGMENT_HEADER_LEN)
    }

    // One header of the chain: the one at the cursor.
    #[tactic(auto, unfolding(crate::specs::Reading::step_of))]
    fn step(&self, cursor: Cursor, allowance: u8) -> ControlFlow<PacketEndpointDisposition, Cursor>
        ensures { outcome_of cursor.at result ≡ step_of self.now.packet.now self.now.port self.now.end allowance cursor.next cursor.at }
    {
        let at = cursor.at;
        match sort(cursor.next) {
            HeaderClass::Udp => ControlFlow::Break(self.udp(at)),
            HeaderClass::NotUdp => ControlFlow::Break(PacketEndpointDisposition::Unrelated),
            HeaderClass::Options => self.counted(at, allowance, 8, 1),
            HeaderClass::Authentication => self.counted(at, allowance, 4, 2),
            HeaderClass::Fragment => self.fragment(at, allowance),
            HeaderClass::Other => ControlFlow::Break(PacketEndpointDisposition::Indeterminate),
        }
    }

    // The chain from the cursor on: after a header, the rest of it is read with an allowance one smaller. Each header passed is added to
    // `headers`.
    //
    // The compiler makes a loop of the last call, so long as it hands on numbers, references and structs of two numbers, and the answer is no
    // struct. With the allowance as a third field of the cursor, or the count in the answer, it stayed a call: a packet with four extension
    // headers took 444 or 311 instructions where it took 173 (callgrind, on a trial of the classifier alone).
    #[tactic(auto, using(crate::proofs::Laws::walk_over, crate::proofs::Laws::allowed, crate::proofs::Laws::walk_on))]
    fn walk(&self, cursor: Cursor, allowance: u8, headers: &mut u8) -> PacketEndpointDisposition
        requires { headers.old + allowance ≤ 4 }
        ensures { Walked (walk_of self.now.packet.now self.now.port self.now.end allowance cursor.next cursor.at) headers.old result headers.new }
    {
        match self.step(cursor, allowance) {
            ControlFlow::Break(disposition) => disposition,
            ControlFlow::Continue(after) => {
                *headers += 1;
                self.walk(after, allowance - 1, headers)
            }
        }
    }
}

// ---- the two families

// Whether an IPv4 packet's source, which begins at 12, is the address. It is compared where it stands, as one number: one function for both
// widths would compare octet by octet.
#[tactic(auto, using(octets::proofs::SameLaws::same_numbers))]
fn same_ipv4(packet: &[u8], address: &[u8]) -> bool
    ensures { result ≡ same_octets (source4 packet.now) (octets_at address.now 0 4) }
{
    octets::get_le::<u32>(packet, 12) == octets::get_le::<u32>(address, 0)
}

// The same of an IPv6 packet's source, which begins at 8, as two numbers. It is called from one place only: the compiler puts it
// there, behind the test of the packet's length, and the readers' own tests fold away.
#[tactic(auto, using(crate::proofs::Laws::same_sixteen))]
fn same_ipv6(packet: &[u8], address: &[u8]) -> bool
    ensures { result ≡ same_octets (source6 packet.now) (octets_at address.now 0 16) }
{
    octets::get_le::<u64>(packet, 8) == octets::get_le::<u64>(address, 0)
        && octets::get_le::<u64>(packet, 16) == octets::get_le::<u64>(address, 8)
}

#[tactic(auto, unfolding(crate::specs::Reading::ipv4_head))]
fn ipv4(packet: &[u8], endpoint: ProtectedEndpoint) -> PacketEndpointDisposition
    ensures { stop 0 (disposition_of result) ≡ ipv4_of packet.now endpoint }
{
    let len = packet.len();
    if len < IPV4_MIN_HEADER_LEN {
        return PacketEndpointDisposition::Indeterminate;
    }
    let size = 4 * ((octets::get_u8(packet, 0) % 16) as usize);
    if size < IPV4_MIN_HEADER_LEN {
        return PacketEndpointDisposition::Indeterminate;
    }
    if !same_ipv4(packet, &endpoint.address) {
        return PacketEndpointDisposition::Unrelated;
    }
    let total = octets::get_be::<u16>(packet, 2) as usize;
    if total < size || len < total {
        return PacketEndpointDisposition::Indeterminate;
    }
    if octets::get_u8(packet, 9) != IPV4_PROTOCOL_UDP {
        return PacketEndpointDisposition::Unrelated;
    }
    if octets::get_be::<u16>(packet, 6) & IPV4_AMBIGUOUS_FRAGMENT_MASK != 0 {
        return PacketEndpointDisposition::Indeterminate;
    }
    let reader = Reader {
        packet,
        end: total,
        port: endpoint.port,
    };
    reader.udp(size)
}

#[tactic(auto, unfolding(crate::specs::Reading::ipv6_head))]
fn ipv6(packet: &[u8], endpoint: ProtectedEndpoint) -> PacketReading
    ensures { answer_of result ≡ ipv6_of packet.now endpoint }
{
    let len = packet.len();
    if len < IPV6_HEADER_LEN {
        return stopped(PacketEndpointDisposition::Indeterminate);
    }
    if !same_ipv6(packet, &endpoint.address) {
        return stopped(PacketEndpointDisposition::Unrelated);
    }
    let payload = octets::get_be::<u16>(packet, 4) as usize;
    if payload == 0 {
        return stopped(PacketEndpointDisposition::Indeterminate);
    }
    let end = IPV6_HEADER_LEN + payload;
    if len < end {
        return stopped(PacketEndpointDisposition::Indeterminate);
    }
    let reader = Reader {
        packet,
        end,
        port: endpoint.port,
    };
    let cursor = Cursor {
        next: octets::get_u8(packet, 6),
        at: IPV6_HEADER_LEN,
    };
    let mut headers = 0;
    let disposition = reader.walk(cursor, MAX_IPV6_EXTENSION_HEADERS, &mut headers);
    PacketReading {
        disposition,
        headers,
    }
}

// The endpoint is of another family than the packet: the packet is not its own, if it is of any family at all.
// With the two pairs of families as a case of their own in `classify_l3_udp_source`, such a packet takes four instructions fewer, and each
// other three or four more.
#[tactic(auto, unfolding(crate::specs::Reading::known))]
fn foreign(family: u8) -> PacketEndpointDisposition
    ensures { disposition_of result ≡ cond (known family) unrelated indeterminate }
{
    match family {
        ProtectedEndpoint::IPV4 | ProtectedEndpoint::IPV6 => PacketEndpointDisposition::Unrelated,
        _ => PacketEndpointDisposition::Indeterminate,
    }
}

// Whether the packet comes from the endpoint. The endpoint need not be sound: spare address bytes are not looked at, and port 0 is
// compared like any other.
#[tactic(auto, unfolding(crate::specs::Reading::classify_of, crate::specs::Reading::known))]
pub fn classify_l3_udp_source(packet: &[u8], endpoint: ProtectedEndpoint) -> PacketReading
    ensures { answer_of result ≡ classify_of packet.now endpoint }
{
    if packet.is_empty() {
        return stopped(PacketEndpointDisposition::Indeterminate);
    }
    match (octets::get_u8(packet, 0) / 16, endpoint.family) {
        (4, ProtectedEndpoint::IPV4) => stopped(ipv4(packet, endpoint)),
        (6, ProtectedEndpoint::IPV6) => ipv6(packet, endpoint),
        (4 | 6, family) => stopped(foreign(family)),
        _ => stopped(PacketEndpointDisposition::Indeterminate),
    }
}
