// Query 56: the joined gate for C, `threadwicket_gate_raw`. After `room` come the lengths of the configuration and the current record (u8
// each), the attachment number, the socket (family, address, port), cookie and boot time; a filler record and how often it stands before
// and after the table's own bytes (u16 each); the length of those (u16); then configuration, current record, the table's own bytes, and
// the packet. What is lent is the reading: the number of extension headers passed (u64).
use crate::gathered::Gathered;
use crate::parts;
use crate::query::QueryError;

// The fixed part of a query.
const HEAD: usize = 91;

// The parts of a query: the fixed one, and those that it has the lengths of.
#[derive(Clone, Copy)]
struct Call<'a> {
    head: &'a [u8; HEAD],
    config: &'a [u8],
    current: &'a [u8],
    own: &'a [u8],
    packet: &'a [u8],
}

// The table: fillers, its own bytes, fillers.
type Table = Gathered<164000>;

impl Call<'_> {
    // Takes a query apart.
    fn of(body: &[u8]) -> Result<Call<'_>, QueryError> {
        let (head, rest) = parts::split_array::<HEAD>(body)?;
        let (config, rest) = parts::split(rest, octets::get_u8(head, 0) as usize)?;
        let (current, rest) = parts::split(rest, octets::get_u8(head, 1) as usize)?;
        let (own, packet) = parts::split(rest, octets::get_le::<u16>(head, 89) as usize)?;
        Ok(Call {
            head,
            config,
            current,
            own,
            packet,
        })
    }

    // Whether the table has no fillers.
    fn is_bare(&self) -> bool {
        let head = self.head;
        octets::get_le::<u32>(head, 85) == 0
    }

    // Puts the filler record n times.
    fn put_fillers(&self, n: u16, table: &mut Table) {
        let head = self.head;
        let filler = &head[45..85];
        for _ in 0..n {
            table.put(filler);
        }
    }

    fn lay_out(&self, table: &mut Table) {
        let head = self.head;
        self.put_fillers(octets::get_le::<u16>(head, 85), table);
        table.put(self.own);
        self.put_fillers(octets::get_le::<u16>(head, 87), table);
    }

    // The call, with a table.
    fn judge(&self, table: &[u8], reading: &mut [u8]) -> u32 {
        let head = self.head;
        let address = octets::array_at::<16>(head, 11);
        export_gate::threadwicket_gate_raw(
            self.config,
            octets::get_le::<u64>(head, 2),
            octets::get_u8(head, 10),
            &address,
            octets::get_le::<u16>(head, 27),
            self.packet,
            octets::get_le::<u64>(head, 29),
            self.current,
            table,
            octets::get_le::<u64>(head, 37),
            reading,
        )
    }
}

// The call, with the table's own bytes where there are no fillers, else with the table that is laid out.
pub(crate) fn judge(body: &[u8], reading: &mut [u8]) -> Result<u32, QueryError> {
    let call = Call::of(body)?;
    if call.is_bare() {
        return Ok(call.judge(call.own, reading));
    }
    let mut table = Table::new();
    call.lay_out(&mut table);
    Ok(call.judge(table.bytes(), reading))
}
