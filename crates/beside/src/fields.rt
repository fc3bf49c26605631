// The fields of each record, by their accessors, as an answer has them.
ghost use Rattle.std.specs.Prelude.{◌+◌, ◌≤◌};

use crate::Answers;
use authority::current::CurrentFenceToken;
use authority::mutation::FenceMutationAuthority;
use endpoint::ProtectedEndpoint;
use records::cookie_value::FenceCookieValue;
use records::entry::{FenceEntry, FenceEntryState};
use records::key::FenceCookieKey;

// Token, cookie, whether it is lifecycle-open, whether it is retirement-closed: 18 bytes.
pub(crate) fn put_current(value: CurrentFenceToken, out: &mut Answers)
    ensures { out.new.used ≤ out.old.used + 18 }
{
    out.put(&value.durable_fence_token().0.to_le_bytes());
    out.put(&value.registered_socket_cookie().0.to_le_bytes());
    out.put(&[
        value.is_lifecycle_open() as u8,
        value.is_retirement_closed() as u8,
    ]);
}

// Generation, claim: 16 bytes.
pub(crate) fn put_mutation(value: FenceMutationAuthority, out: &mut Answers)
    ensures { out.new.used ≤ out.old.used + 16 }
{
    out.put(&value.generation().to_le_bytes());
    out.put(&value.in_flight_claim().to_le_bytes());
}

// Cookie, token: 16 bytes.
pub(crate) fn put_key(value: FenceCookieKey, out: &mut Answers)
    ensures { out.new.used ≤ out.old.used + 16 }
{
    out.put(&value.socket_cookie().0.to_le_bytes());
    out.put(&value.durable_fence_token().0.to_le_bytes());
}

// The number of a state in the stream of answers, in the order in which 01 lists them: nothing else has these numbers.
fn state_number(state: FenceEntryState) -> u8 {
    match state {
        FenceEntryState::InitialClosed => 0,
        FenceEntryState::Active => 1,
        FenceEntryState::TerminalClosed => 2,
        FenceEntryState::Reclaiming => 3,
    }
}

// State, token, deadline, epoch, whether it is closed, terminal, reclaiming: 28 bytes.
pub(crate) fn put_entry(value: FenceEntry, out: &mut Answers)
    ensures { out.new.used ≤ out.old.used + 28 }
{
    out.put(&[state_number(value.state())]);
    out.put(&value.durable_fence_token().0.to_le_bytes());
    out.put(&value.deadline_boot_ns().0.to_le_bytes());
    out.put(&value.control_epoch().0.to_le_bytes());
    out.put(&[
        value.is_closed() as u8,
        value.is_terminal() as u8,
        value.is_reclaiming() as u8,
    ]);
}

// Its key's and its entry's: 44 bytes.
pub(crate) fn put_value(value: FenceCookieValue, out: &mut Answers)
    ensures { out.new.used ≤ out.old.used + 44 }
{
    put_key(value.key(), out);
    put_entry(value.entry(), out);
}

// Family, address, port.
pub(crate) fn endpoint_bytes(value: ProtectedEndpoint) -> [u8; 19] {
    let mut bytes = [0u8; 19];
    bytes[0] = value.family;
    bytes[1..17].copy_from_slice(&value.address);
    bytes[17..].copy_from_slice(&value.port().to_le_bytes());
    bytes
}

// The same: 19 bytes.
pub(crate) fn put_endpoint(value: ProtectedEndpoint, out: &mut Answers)
    ensures { out.new.used ≤ out.old.used + 19 }
{
    out.put(&endpoint_bytes(value));
}

// An inspection's entry: 1 and its cookie value's, or 0 where there is none.
pub(crate) fn put_inspected(entry: Option<FenceCookieValue>, out: &mut Answers)
    ensures { out.new.used ≤ out.old.used + 45 }
{
    match entry {
        None => out.put(&[0]),
        Some(value) => {
            out.put(&[1]);
            put_value(value, out);
        }
    }
}
