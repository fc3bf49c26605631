// The static library of `export_gate` for programs in C and in languages that call C, for x86-64: its function under its own name, by one call,
// and with its clause. `rt lib` writes out/libexport_gate_c.a. It is an archive of its own, so that the classifier is compiled into its one
// caller in each of the two. include/threadwicket.h has the declaration for C.
#![tactic(auto)]

ghost use Rattle.gate.specs.Gate.{given, gate_of};
ghost use Rattle.export_gate.specs.Export.{Judged};

use export_gate::Address;

// The joined gate: the verdict's slot, or 255 for PassUnrelated, which has none, with the count of extension headers passed in `reading`.
// Where that is too short the answer is 256, and nothing is written.
#[unsafe(no_mangle)]
pub extern "C" fn threadwicket_gate_raw(
    config: &[u8],
    attachment: u64,
    family: u8,
    address: &Address,
    port: u16,
    packet: &[u8],
    cookie: u64,
    current: &[u8],
    table: &[u8],
    now_boot_ns: u64,
    reading: &mut [u8],
) -> u32
    ensures { Judged (gate_of (given config.now attachment (record { family = family; address = address.now; port = port }) packet.now cookie current.now table.now now_boot_ns)) reading.old result reading.new }
{
    export_gate::threadwicket_gate_raw(
        config,
        attachment,
        family,
        address,
        port,
        packet,
        cookie,
        current,
        table,
        now_boot_ns,
        reading,
    )
}
