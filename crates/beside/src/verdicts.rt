// Query 48: what is known of a packet and of the authority. The answer is the verdict's slot, or ff where it has none, and whether the
// packet must be dropped.
ghost use Rattle.std.specs.Prelude.{◌+◌, ◌≤◌};

use crate::query::QueryError;
use crate::{Answers, parts};
use packet::PacketEndpointDisposition;
use records::entry::{FenceEntry, FenceEntryState};
use units::{BootNs, ControlEpoch, DurableFenceToken, SocketCookie};
use verdict::{FenceAuthoritySnapshot, PacketFenceContext};

// The state of a number of the stream of queries, which has no other numbers for it: there is no plainer form.
fn state_of(number: u8) -> FenceEntryState {
    match number {
        0 => FenceEntryState::InitialClosed,
        1 => FenceEntryState::Active,
        2 => FenceEntryState::TerminalClosed,
        _ => FenceEntryState::Reclaiming,
    }
}

// The entry: whether there is one, its state, token, deadline and epoch.
fn entry_of(body: &[u8]) -> Option<FenceEntry> {
    if octets::get_u8(body, 11) == 0 {
        return None;
    }
    Some(FenceEntry {
        state: state_of(octets::get_u8(body, 12)),
        durable_fence_token: DurableFenceToken(octets::get_le::<u64>(body, 13)),
        deadline_boot_ns: BootNs(octets::get_le::<u64>(body, 21)),
        control_epoch: ControlEpoch(octets::get_le::<u64>(body, 29)),
    })
}

fn context_of(body: &[u8]) -> PacketFenceContext {
    PacketFenceContext::new(
        octets::get_u8(body, 0) != 0,
        octets::get_u8(body, 1) != 0,
        PacketEndpointDisposition::from(octets::get_u8(body, 2)),
        SocketCookie(octets::get_le::<u64>(body, 3)),
    )
}

fn authority_of(body: &[u8]) -> FenceAuthoritySnapshot {
    FenceAuthoritySnapshot::new(
        entry_of(body),
        DurableFenceToken(octets::get_le::<u64>(body, 37)),
        SocketCookie(octets::get_le::<u64>(body, 45)),
        BootNs(octets::get_le::<u64>(body, 53)),
    )
}

// Puts the slot and whether the packet must be dropped.
pub(crate) fn answer(body: &[u8], out: &mut Answers) -> Result<(), QueryError>
    ensures { out.new.used ≤ out.old.used + 512 }
{
    let body = parts::exactly::<61>(body)?;
    let verdict = verdict::decide_egress(context_of(body), authority_of(body));
    out.put(&[verdict.slot_number(), verdict.must_drop() as u8]);
    Ok(())
}
