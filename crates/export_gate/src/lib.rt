// The joined gate as programs in other languages call it: numbers, slices of bytes and a reference to an array alone. This is the library;
// `export_gate_c` exports its function for C under the same name, and include/threadwicket.h has the declaration.
#![tactic(auto)]

ghost use Rattle.gate.specs.Gate.{given, gate_of};
ghost use Rattle.export_gate.specs.Export.{Judged};

use gate::{GateCall, Socket};
use units::{BootNs, RootCgroupId, SocketCookie};

// An address in network order; an IPv4 one stands in the first four bytes.
pub type Address = [u8; 16];

// The joined gate: the verdict's slot, or 255 for PassUnrelated, which has none, with the count of extension headers passed in `reading`.
// Where that is too short the answer is 256, and nothing is written.
pub fn threadwicket_gate_raw(
    config: &[u8],
    attachment: u64,
    family: u8,
    address: &Address,
    port: u16,
    packet: &[u8],
    cookie: u64,
    current: &[u8],
    table: &[u8],
    now_boot_ns: u64,
    reading: &mut [u8],
) -> u32
    ensures { Judged (gate_of (given config.now attachment (record { family = family; address = address.now; port = port }) packet.now cookie current.now table.now now_boot_ns)) reading.old result reading.new }
{
    if reading.len() < export::READING {
        return export::NO_ROOM;
    }
    let socket = Socket {
        family,
        address: *address,
        port,
    };
    let answer = gate::gate(&GateCall {
        config,
        attachment: RootCgroupId(attachment),
        socket,
        packet,
        cookie: SocketCookie(cookie),
        current,
        table,
        now_boot_ns: BootNs(now_boot_ns),
    });
    octets::put_le::<u64>(reading, 0, answer.headers as u64);
    answer.verdict.slot_number() as u32
}
