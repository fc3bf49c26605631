// The current record, 24 bytes: the durable token in force, and the socket cookie registered under it.
ghost use Rattle.std.specs.Prelude.{refl, ◌≡◌, not, [], ◌∷◌, eqb};
ghost use Rattle.codec.specs.Answers.{Builds};
ghost use Rattle.codec.specs.Words.{put, asking, ok, laid};
ghost use Rattle.authority.specs.Current.{open_control, retired_control, current_control, current_codec, current_numbers, is_lifecycle_open, is_retirement_closed};

use codec::{Record, Refusal};
use units::{DurableFenceToken, SocketCookie};

// Token, registered cookie, and whether the token is retired.
#[derive(Clone, Copy, PartialEq, Eq)]
pub struct CurrentFenceToken {
    pub durable_fence_token: DurableFenceToken,
    pub registered_socket_cookie: SocketCookie,
    pub retirement_closed: bool,
}

// The numbers of the layout's fields, as bytes or a constructor's arguments give them.
#[derive(Clone, Copy, PartialEq, Eq)]
pub struct CurrentFields {
    pub zeros: u32,
    pub control: u32,
    pub durable_fence_token: DurableFenceToken,
    pub registered_socket_cookie: SocketCookie,
}

impl CurrentFields {
    // Whether they obey the record's rule, by the control.
    #[tactic(auto, unfolding(crate::specs::Current::current_listed, crate::specs::Current::token_fits, crate::specs::Current::cookie_fits))]
    pub fn obey_rule(self) -> bool
        ensures { result ≡ ok current_codec (current_numbers self) }
    {
        let token = self.durable_fence_token.0;
        let cookie = self.registered_socket_cookie.0;
        if self.zeros != 0 {
            return false;
        }
        // With the open record's case second, the compiler asks for it before the closed one: two or three instructions fewer for it.
        match self.control {
            CurrentFenceToken::RETIREMENT_CLOSED_CONTROL => {
                ((token % 2 == 0) & (token != 0)) & (cookie == 0)
            }
            CurrentFenceToken::LIFECYCLE_OPEN_CONTROL => token % 2 != 0,
            0 => (token == 0) & (cookie == 0),
            _ => false,
        }
    }

    // The record that they stand for, or 2 where they break its rule.
    pub fn to_record(self) -> Result<CurrentFenceToken, Refusal>
        ensures { Builds current_codec (current_numbers self) result }
    {
        if !self.obey_rule() {
            return Err(Refusal::BrokenRule);
        }
        Ok(CurrentFenceToken {
            durable_fence_token: self.durable_fence_token,
            registered_socket_cookie: self.registered_socket_cookie,
            retirement_closed: self.control == CurrentFenceToken::RETIREMENT_CLOSED_CONTROL,
        })
    }

    // The numbers put at the start of a slice, each in its field; octets past the end are dropped. It does not ask for the rule.
    pub fn write(self, out: &mut [u8])
        ensures { out.new ≡ put out.old 0 (laid current_codec.layout (current_numbers self)) }
    {
        octets::put_le::<u32>(out, 0, self.zeros);
        octets::put_le::<u32>(out, 4, self.control);
        octets::put_le::<u64>(out, 8, self.durable_fence_token.0);
        octets::put_le::<u64>(out, 16, self.registered_socket_cookie.0);
    }
}

impl CurrentFenceToken {
    // The control word of a token that is open, with a registered socket or without.
    pub const LIFECYCLE_OPEN_CONTROL: u32 = 0x4f45_0201;

    // The control word of a token that is retired.
    pub const RETIREMENT_CLOSED_CONTROL: u32 = 0x4f45_0202;

    // Before the first token is published.
    pub fn initial() -> CurrentFenceToken
        ensures { Builds current_codec (0 ∷ 0 ∷ 0 ∷ 0 ∷ []) (Ok result) }
    {
        CurrentFenceToken {
            durable_fence_token: DurableFenceToken(0),
            registered_socket_cookie: SocketCookie(0),
            retirement_closed: false,
        }
    }

    // An open token without a socket, or 2 where it is not odd.
    pub fn lifecycle_open(
        durable_fence_token: DurableFenceToken,
    ) -> Result<CurrentFenceToken, Refusal>
        ensures { Builds current_codec (0 ∷ open_control ∷ durable_fence_token.0 ∷ 0 ∷ []) result }
    {
        CurrentFields {
            zeros: 0,
            control: CurrentFenceToken::LIFECYCLE_OPEN_CONTROL,
            durable_fence_token,
            registered_socket_cookie: SocketCookie(0),
        }
        .to_record()
    }

    // A retired token, or 2 where it is 0 or odd.
    pub fn retirement_closed(
        durable_fence_token: DurableFenceToken,
    ) -> Result<CurrentFenceToken, Refusal>
        ensures { Builds current_codec (0 ∷ retired_control ∷ durable_fence_token.0 ∷ 0 ∷ []) result }
    {
        CurrentFields {
            zeros: 0,
            control: CurrentFenceToken::RETIREMENT_CLOSED_CONTROL,
            durable_fence_token,
            registered_socket_cookie: SocketCookie(0),
        }
        .to_record()
    }

    // A registered cookie is not 0.
    pub fn registered(
        durable_fence_token: DurableFenceToken,
        registered_socket_cookie: SocketCookie,
    ) -> Result<CurrentFenceToken, Refusal>
        ensures { Builds (asking (not (eqb registered_socket_cookie.0 0)) current_codec)
            (0 ∷ open_control ∷ durable_fence_token.0 ∷ registered_socket_cookie.0 ∷ []) result }
    {
        if registered_socket_cookie.0 == 0 {
            return Err(Refusal::BrokenRule);
        }
        CurrentFields {
            zeros: 0,
            control: CurrentFenceToken::LIFECYCLE_OPEN_CONTROL,
            durable_fence_token,
            registered_socket_cookie,
        }
        .to_record()
    }

    // The durable token in force, or 0 before the first.
    pub fn durable_fence_token(self) -> DurableFenceToken
        ensures { result ≡ self.durable_fence_token }
    {
        self.durable_fence_token
    }

    // The cookie claimed under this token, or 0 before a registration.
    pub fn registered_socket_cookie(self) -> SocketCookie
        ensures { result ≡ self.registered_socket_cookie }
    {
        self.registered_socket_cookie
    }

    // Whether the token can own one socket registration.
    pub fn is_lifecycle_open(self) -> bool
        ensures { result ≡ is_lifecycle_open self }
    {
        (self.durable_fence_token.0 != 0) & !self.retirement_closed
    }

    // Whether the token closes registration for good.
    pub fn is_retirement_closed(self) -> bool
        ensures { result ≡ is_retirement_closed self }
    {
        (self.durable_fence_token.0 != 0) & self.retirement_closed
    }

    // The word that stands for the record's state in its bytes.
    pub fn control(self) -> u32
        ensures { result ≡ current_control self }
    {
        if self.retirement_closed {
            CurrentFenceToken::RETIREMENT_CLOSED_CONTROL
        } else if self.durable_fence_token.0 == 0 {
            0
        } else {
            CurrentFenceToken::LIFECYCLE_OPEN_CONTROL
        }
    }

    // The numbers that the record is written with.
    pub fn fields(self) -> CurrentFields
        ensures { current_numbers result ≡ current_codec.fields self }
    {
        CurrentFields {
            zeros: 0,
            control: self.control(),
            durable_fence_token: self.durable_fence_token,
            registered_socket_cookie: self.registered_socket_cookie,
        }
    }
}

impl Record for CurrentFenceToken {
    ghost codec = { current_codec };

    const LEN: usize = 24;

    ghost LEN = { 24 };

    ghost sized = { refl };

    ghost counted = { λ v. refl };

    fn blank() -> CurrentFenceToken {
        CurrentFenceToken::initial()
    }

    fn is_sound(self) -> bool {
        self.fields().obey_rule()
    }

    fn read(s: &[u8]) -> Result<CurrentFenceToken, Refusal> {
        CurrentFields {
            zeros: octets::get_le::<u32>(s, 0),
            control: octets::get_le::<u32>(s, 4),
            durable_fence_token: DurableFenceToken(octets::get_le::<u64>(s, 8)),
            registered_socket_cookie: SocketCookie(octets::get_le::<u64>(s, 16)),
        }
        .to_record()
    }

    fn write(self, out: &mut [u8]) {
        self.fields().write(out);
    }
}
