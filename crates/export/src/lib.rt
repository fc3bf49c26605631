// The classifier, the refresh-deadline check and the seven records as programs in other languages call them: numbers, slices of bytes and
// references to arrays alone. This is the library; `export_c` exports each function for C under the same name, and
// include/threadwicket.h has the declarations.
#![tactic(auto)]

pub mod config_view;
pub mod cookie_value;
pub mod current;
pub mod entry;
mod image;
pub mod inspection_view;
pub mod key;
pub mod mutation;

ghost use Rattle.std.specs.Prelude.{◌≡◌};
ghost use Rattle.deadline.specs.Deadline.{refresh_decision};
ghost use Rattle.packet.specs.Reading.{classify_of};
ghost use Rattle.export.specs.Export.{Classified};

use endpoint::ProtectedEndpoint;
use units::BootNs;

// An address in network order; an IPv4 one stands in the first four bytes.
pub type Address = [u8; 16];

// The room that a reading takes: the count of extension headers passed, in eight bytes.
pub const READING: usize = 8;

// What is answered where a reading has no room: no answer's number.
pub const NO_ROOM: u32 = 256;

// Reads a packet's source against an endpoint: 0 Protected, 1 Unrelated or 2 Indeterminate, with the count of extension headers passed in
// `reading`. Where that is too short the answer is 256, and nothing is written.
pub fn threadwicket_classify_raw(
    packet: &[u8],
    family: u8,
    address: &Address,
    port: u16,
    reading: &mut [u8],
) -> u32
    ensures { Classified (classify_of packet.now (record { family = family; address = address.now; port = port })) reading.old result reading.new }
{
    if reading.len() < READING {
        return NO_ROOM;
    }
    let read = packet::classify_l3_udp_source(
        packet,
        ProtectedEndpoint {
            family,
            address: *address,
            port,
        },
    );
    let disposition = read.disposition;
    octets::put_le::<u64>(reading, 0, read.headers as u64);
    disposition.number() as u32
}

// Whether a requested deadline may take the place of the prior one: 0 PriorExpired, 1 RequestedDeadlineInvalid, 2 DeadlineRegressed or
// 3 Apply.
pub fn threadwicket_refresh(observed: u64, prior: u64, requested: u64) -> u32
    ensures { result ≡ refresh_decision observed prior requested }
{
    let decision = deadline::evaluate_refresh_deadlines(
        BootNs(observed),
        BootNs(prior),
        BootNs(requested),
    );
    decision.number() as u32
}
