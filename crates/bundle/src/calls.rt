// A packet judged by what is in force at a cursor.
ghost use Rattle.std.specs.Prelude.{◌≤◌, ◌≡◌, length, take, replicate};
ghost use Rattle.gate.specs.Gate.{gate_of, answer_of};
ghost use Rattle.bundle.specs.Frames.{socket_of, call_of};
ghost use Rattle.bundle.specs.Cursor.{held, state_of};

use crate::frames::{CALL, Cursor};
use authority::current::CurrentFenceToken;
use codec::Record;
use config::FenceConfig;
use gate::{GateAnswer, GateCall, Socket};
use units::{BootNs, RootCgroupId, SocketCookie};

// The n bytes at a place of the input, or as many zeros where they do not lie inside. The zeros are an array of the caller's
// own: of a constant the compiler chooses an address for each field that is read of the bytes, whether it is asked for or not.
fn body<'a>(input: &'a [u8], zeros: &'a [u8; CALL], at: usize, n: usize) -> &'a [u8]
    requires { (zeros.now ≡ replicate 43 0) × (n ≤ 43) }
    ensures { result.now ≡ held input.now at n }
{
    let Some(rest) = input.get(at..) else {
        return &zeros[..n];
    };
    let Some(there) = rest.get(..n) else {
        return &zeros[..n];
    };
    there
}

// The socket of a call's body.
fn socket_of(call: &[u8]) -> Socket
    ensures { result ≡ socket_of call.now }
{
    Socket {
        family: octets::get_u8(call, 8),
        address: octets::array_at::<16>(call, 11),
        port: octets::get_le::<u16>(call, 9),
    }
}

// The first n bytes, or all where there are fewer.
fn first(s: &[u8], n: usize) -> &[u8]
    ensures { result.now ≡ take n s.now }
{
    &s[..n.min(s.len())]
}

// The gate's answer for a packet, by what is in force at the cursor.
pub fn judge(input: &[u8], table: &[u8], cursor: Cursor, packet: &[u8]) -> GateAnswer
    ensures { answer_of result ≡ gate_of (call_of (state_of input.now cursor table.now) packet.now) }
{
    let zeros = [0u8; CALL];
    let call = body(input, &zeros, cursor.call, CALL);
    gate::gate(&GateCall {
        config: body(input, &zeros, cursor.config, FenceConfig::LEN),
        attachment: RootCgroupId(octets::get_le::<u64>(call, 0)),
        socket: socket_of(call),
        packet,
        cookie: SocketCookie(octets::get_le::<u64>(call, 27)),
        current: body(input, &zeros, cursor.current, CurrentFenceToken::LEN),
        table: first(table, cursor.gathered),
        now_boot_ns: BootNs(octets::get_le::<u64>(call, 35)),
    })
}
