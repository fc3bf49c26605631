// A cookie value, 40 bytes: the key of a registered socket and the state of its entry, the token they share held once.
ghost use Rattle.std.specs.Prelude.{refl, ◌≡◌};
ghost use Rattle.codec.specs.Answers.{Builds};
ghost use Rattle.codec.specs.Words.{put, asking, ok, laid};
ghost use Rattle.records.specs.CookieValue.{cookie_value_codec, cookie_value_numbers, key_of, entry_of, agreeing, pair_fields};

use crate::entry::{FenceEntry, FenceEntryState};
use crate::key::FenceCookieKey;
use codec::{Record, Refusal};
use units::{BootNs, ControlEpoch, DurableFenceToken, SocketCookie};

// State, cookie, token, deadline and epoch of a registered socket.
#[derive(Clone, Copy, PartialEq, Eq)]
pub struct FenceCookieValue {
    pub state: FenceEntryState,
    pub socket_cookie: SocketCookie,
    pub durable_fence_token: DurableFenceToken,
    pub deadline_boot_ns: BootNs,
    pub control_epoch: ControlEpoch,
}

// The numbers of the layout's fields, as bytes or a constructor's arguments give them.
#[derive(Clone, Copy, PartialEq, Eq)]
pub struct CookieValueFields {
    pub zeros: u32,
    pub control: u32,
    pub socket_cookie: SocketCookie,
    pub durable_fence_token: DurableFenceToken,
    pub deadline_boot_ns: BootNs,
    pub control_epoch: ControlEpoch,
}

impl CookieValueFields {
    // Whether they obey the record's rule.
    pub fn obey_rule(self) -> bool
        ensures { result ≡ ok cookie_value_codec (cookie_value_numbers self) }
    {
        self.to_record().is_ok()
    }

    // The record that they stand for, or 2 where they break its rule.
    pub fn to_record(self) -> Result<FenceCookieValue, Refusal>
        ensures { Builds cookie_value_codec (cookie_value_numbers self) result }
    {
        if self.zeros != 0 {
            return Err(Refusal::BrokenRule);
        }
        FenceCookieValue {
            state: FenceEntryState::try_from(self.control)?,
            socket_cookie: self.socket_cookie,
            durable_fence_token: self.durable_fence_token,
            deadline_boot_ns: self.deadline_boot_ns,
            control_epoch: self.control_epoch,
        }
        .if_sound()
    }

    // The numbers put at the start of a slice, each in its field; octets past the end are dropped. It does not ask for the rule.
    pub fn write(self, out: &mut [u8])
        ensures { out.new ≡ put out.old 0 (laid cookie_value_codec.layout (cookie_value_numbers self)) }
    {
        octets::put_le::<u32>(out, 0, self.zeros);
        octets::put_le::<u32>(out, 4, self.control);
        octets::put_le::<u64>(out, 8, self.socket_cookie.0);
        octets::put_le::<u64>(out, 16, self.durable_fence_token.0);
        octets::put_le::<u64>(out, 24, self.deadline_boot_ns.0);
        octets::put_le::<u64>(out, 32, self.control_epoch.0);
    }
}

// Whether a key and an entry are sound and of one token.
#[tactic(auto, unfolding(crate::specs::CookieValue::agreeing))]
fn agree(key: FenceCookieKey, entry: FenceEntry) -> bool
    ensures { result ≡ agreeing key entry }
{
    key.is_sound() && entry.is_sound() && key.durable_fence_token == entry.durable_fence_token
}

impl FenceCookieValue {
    // A key and an entry of the same token, or 2 where one of them is unsound or their tokens differ.
    pub fn new(key: FenceCookieKey, entry: FenceEntry) -> Result<FenceCookieValue, Refusal>
        ensures { Builds (asking (agreeing key entry) cookie_value_codec) (pair_fields key entry) result }
    {
        if !agree(key, entry) {
            return Err(Refusal::BrokenRule);
        }
        Ok(FenceCookieValue {
            state: entry.state,
            socket_cookie: key.socket_cookie,
            durable_fence_token: key.durable_fence_token,
            deadline_boot_ns: entry.deadline_boot_ns,
            control_epoch: entry.control_epoch,
        })
    }

    // The key that the record stands under.
    pub fn key(self) -> FenceCookieKey
        ensures { result ≡ key_of self }
    {
        FenceCookieKey {
            socket_cookie: self.socket_cookie,
            durable_fence_token: self.durable_fence_token,
        }
    }

    // The entry of the socket.
    pub fn entry(self) -> FenceEntry
        ensures { result ≡ entry_of self }
    {
        FenceEntry {
            state: self.state,
            durable_fence_token: self.durable_fence_token,
            deadline_boot_ns: self.deadline_boot_ns,
            control_epoch: self.control_epoch,
        }
    }

    // The numbers that the record is written with.
    pub fn fields(self) -> CookieValueFields
        ensures { cookie_value_numbers result ≡ cookie_value_codec.fields self }
    {
        CookieValueFields {
            zeros: 0,
            control: self.state.control(),
            socket_cookie: self.socket_cookie,
            durable_fence_token: self.durable_fence_token,
            deadline_boot_ns: self.deadline_boot_ns,
            control_epoch: self.control_epoch,
        }
    }
}

impl Record for FenceCookieValue {
    ghost codec = { cookie_value_codec };

    const LEN: usize = 40;

    ghost LEN = { 40 };

    ghost sized = { refl };

    ghost counted = { λ v. refl };

    fn blank() -> FenceCookieValue {
        FenceCookieValue {
            state: FenceEntryState::InitialClosed,
            socket_cookie: SocketCookie(0),
            durable_fence_token: DurableFenceToken(0),
            deadline_boot_ns: BootNs(0),
            control_epoch: ControlEpoch(0),
        }
    }

    fn is_sound(self) -> bool {
        self.entry().is_sound() & (self.socket_cookie.0 != 0)
    }

    fn read(s: &[u8]) -> Result<FenceCookieValue, Refusal> {
        CookieValueFields {
            zeros: octets::get_le::<u32>(s, 0),
            control: octets::get_le::<u32>(s, 4),
            socket_cookie: SocketCookie(octets::get_le::<u64>(s, 8)),
            durable_fence_token: DurableFenceToken(octets::get_le::<u64>(s, 16)),
            deadline_boot_ns: BootNs(octets::get_le::<u64>(s, 24)),
            control_epoch: ControlEpoch(octets::get_le::<u64>(s, 32)),
        }
        .to_record()
    }

    fn write(self, out: &mut [u8]) {
        self.fields().write(out);
    }
}
