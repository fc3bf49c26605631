// The egress verdict: what becomes of a packet, once it is known whether it comes from the protected endpoint and under which authority.
#![tactic(auto)]

ghost use Rattle.std.specs.Prelude.{◌≡◌};
ghost use Rattle.verdict.specs.Verdict.{slot_of, slot_number, dropped, stale_authority, entry_verdict, protected_verdict, egress_verdict};

use packet::PacketEndpointDisposition;
use records::entry::FenceEntry;
use units::{BootNs, DurableFenceToken, SocketCookie};

// The slots of the counter map, which has eight; slot 1 is reserved.
pub const COUNTER_ALLOWED: u32 = 0;

// Never counted in.
pub const COUNTER_RESERVED: u32 = 1;

// DropCookieZero.
pub const COUNTER_COOKIE_ZERO: u32 = 2;

// DropMissing.
pub const COUNTER_COOKIE_MISSING: u32 = 3;

// DropClosed.
pub const COUNTER_CLOSED: u32 = 4;

// DropExpired.
pub const COUNTER_EXPIRED: u32 = 5;

// DropMalformed.
pub const COUNTER_MALFORMED: u32 = 6;

// DropStaleToken.
pub const COUNTER_STALE_TOKEN: u32 = 7;

// How many slots there are.
pub const EGRESS_FENCE_COUNTER_SLOTS: u32 = 8;

// What becomes of a packet.
#[derive(Clone, Copy, Debug, PartialEq, Eq)]
pub enum FenceVerdict {
    // The packet is provably none of the protected endpoint's.
    PassUnrelated,
    // The packet leaves under a live deadline.
    Allow,
    // The packet's socket has no cookie.
    DropCookieZero,
    // The packet's socket is not registered.
    DropMissing,
    // The socket's entry is closed.
    DropClosed,
    // The socket's deadline is reached or past.
    DropExpired,
    // The socket, or its record's token, is not the one that the current record names.
    DropStaleToken,
    // The packet, or a record that it is judged by, is malformed.
    DropMalformed,
}

impl FenceVerdict {
    // The slot of the counter map in which the verdict is counted.
    pub fn counter_slot(self) -> Option<u32>
        ensures { result ≡ slot_of self }
    {
        match self {
            FenceVerdict::PassUnrelated => None,
            FenceVerdict::Allow => Some(COUNTER_ALLOWED),
            FenceVerdict::DropCookieZero => Some(COUNTER_COOKIE_ZERO),
            FenceVerdict::DropMissing => Some(COUNTER_COOKIE_MISSING),
            FenceVerdict::DropClosed => Some(COUNTER_CLOSED),
            FenceVerdict::DropExpired => Some(COUNTER_EXPIRED),
            FenceVerdict::DropStaleToken => Some(COUNTER_STALE_TOKEN),
            FenceVerdict::DropMalformed => Some(COUNTER_MALFORMED),
        }
    }

    // The number of that slot, by which programs in other languages know the verdict; 255 where it is not counted.
    pub fn slot_number(self) -> u8
        ensures { result ≡ slot_number (slot_of self) }
    {
        match self.counter_slot() {
            Some(number) => number as u8,
            None => 255,
        }
    }

    // Whether the packet must not leave.
    pub fn must_drop(self) -> bool
        ensures { result ≡ dropped (slot_of self) }
    {
        !matches!(self, FenceVerdict::PassUnrelated | FenceVerdict::Allow)
    }
}

// What is known of the packet.
#[derive(Clone, Copy, PartialEq, Eq)]
pub struct PacketFenceContext {
    pub attachment_identity_valid: bool,
    pub socket_endpoint_matches: bool,
    pub endpoint_disposition: PacketEndpointDisposition,
    pub socket_cookie: SocketCookie,
}

// What is known of the authority, as of one moment.
#[derive(Clone, Copy, PartialEq, Eq)]
pub struct FenceAuthoritySnapshot {
    // The entry of the socket, if it is registered.
    pub entry: Option<FenceEntry>,
    pub current_durable_fence_token: DurableFenceToken,
    pub current_registered_socket_cookie: SocketCookie,
    pub now_boot_ns: BootNs,
}

impl PacketFenceContext {
    // The context of its parts.
    pub fn new(
        attachment_identity_valid: bool,
        socket_endpoint_matches: bool,
        endpoint_disposition: PacketEndpointDisposition,
        socket_cookie: SocketCookie,
    ) -> Self
        ensures { result ≡ record { attachment_identity_valid = attachment_identity_valid; socket_endpoint_matches = socket_endpoint_matches; endpoint_disposition = endpoint_disposition; socket_cookie = socket_cookie } }
    {
        Self {
            attachment_identity_valid,
            socket_endpoint_matches,
            endpoint_disposition,
            socket_cookie,
        }
    }
}

impl FenceAuthoritySnapshot {
    // The snapshot of its parts.
    pub fn new(
        entry: Option<FenceEntry>,
        current_durable_fence_token: DurableFenceToken,
        current_registered_socket_cookie: SocketCookie,
        now_boot_ns: BootNs,
    ) -> Self
        ensures { result ≡ record { entry = entry; current_durable_fence_token = current_durable_fence_token; current_registered_socket_cookie = current_registered_socket_cookie; now_boot_ns = now_boot_ns } }
    {
        Self {
            entry,
            current_durable_fence_token,
            current_registered_socket_cookie,
            now_boot_ns,
        }
    }
}

// Whether the socket, or its entry, is not the one that the current record names.
#[tactic(auto, unfolding(crate::specs::Verdict::stale_authority))]
fn is_stale(cookie: SocketCookie, entry: FenceEntry, authority: FenceAuthoritySnapshot) -> bool
    ensures { result ≡ stale_authority cookie.0 entry authority }
{
    let current = authority.current_durable_fence_token;
    let registered = authority.current_registered_socket_cookie;
    current.0 == 0
        || registered.0 == 0
        || cookie != registered
        || entry.durable_fence_token != current
}

// The verdict under an entry that is the current one: by its state, then by its deadline.
#[tactic(auto, unfolding(crate::specs::Verdict::entry_verdict))]
fn decide_entry(entry: FenceEntry, now_boot_ns: BootNs) -> FenceVerdict
    ensures { slot_of result ≡ entry_verdict entry now_boot_ns.0 }
{
    if entry.is_closed() {
        return FenceVerdict::DropClosed;
    }
    if entry.deadline_boot_ns <= now_boot_ns {
        FenceVerdict::DropExpired
    } else {
        FenceVerdict::Allow
    }
}

// The verdict on a protected packet of a socket.
#[tactic(auto, unfolding(crate::specs::Verdict::protected_verdict))]
fn decide_protected(cookie: SocketCookie, authority: FenceAuthoritySnapshot) -> FenceVerdict
    ensures { slot_of result ≡ protected_verdict cookie.0 authority }
{
    if cookie.0 == 0 {
        return FenceVerdict::DropCookieZero;
    }
    match authority.entry {
        None => FenceVerdict::DropMissing,
        Some(entry) if is_stale(cookie, entry, authority) => FenceVerdict::DropStaleToken,
        Some(entry) => decide_entry(entry, authority.now_boot_ns),
    }
}

// The verdict on a packet: unrelated traffic passes, and whatever is in doubt does not.
#[tactic(auto, unfolding(crate::specs::Verdict::egress_verdict))]
pub fn decide_egress(packet: PacketFenceContext, authority: FenceAuthoritySnapshot) -> FenceVerdict
    ensures { slot_of result ≡ egress_verdict packet authority }
{
    if !packet.attachment_identity_valid {
        return FenceVerdict::DropMalformed;
    }
    if !packet.socket_endpoint_matches {
        match packet.endpoint_disposition {
            PacketEndpointDisposition::Unrelated => return FenceVerdict::PassUnrelated,
            PacketEndpointDisposition::Indeterminate => return FenceVerdict::DropMalformed,
            PacketEndpointDisposition::Protected => {}
        }
    }
    decide_protected(packet.socket_cookie, authority)
}
