// The key of a cookie value, 16 bytes: one registered socket's lifecycle.
ghost use Rattle.std.specs.Prelude.{refl, ◌≡◌, [], ◌∷◌};
ghost use Rattle.codec.specs.Answers.{Builds};
ghost use Rattle.records.specs.Key.{key_codec};

use codec::{Record, Refusal};
use units::{DurableFenceToken, SocketCookie};

// The cookie and the token of a registered socket.
#[derive(Clone, Copy, PartialEq, Eq)]
pub struct FenceCookieKey {
    pub socket_cookie: SocketCookie,
    pub durable_fence_token: DurableFenceToken,
}

impl FenceCookieKey {
    // A key, or 2 where one of the two is 0.
    pub fn new(
        socket_cookie: SocketCookie,
        durable_fence_token: DurableFenceToken,
    ) -> Result<FenceCookieKey, Refusal>
        ensures { Builds key_codec (socket_cookie.0 ∷ durable_fence_token.0 ∷ []) result }
    {
        FenceCookieKey {
            socket_cookie,
            durable_fence_token,
        }
        .if_sound()
    }

    // The cookie of the socket.
    pub fn socket_cookie(self) -> SocketCookie
        ensures { result ≡ self.socket_cookie }
    {
        self.socket_cookie
    }

    // The durable token that the record stands under.
    pub fn durable_fence_token(self) -> DurableFenceToken
        ensures { result ≡ self.durable_fence_token }
    {
        self.durable_fence_token
    }
}

impl Record for FenceCookieKey {
    ghost codec = { key_codec };

    const LEN: usize = 16;

    ghost LEN = { 16 };

    ghost sized = { refl };

    ghost counted = { λ v. refl };

    fn blank() -> FenceCookieKey {
        FenceCookieKey {
            socket_cookie: SocketCookie(0),
            durable_fence_token: DurableFenceToken(0),
        }
    }

    fn is_sound(self) -> bool {
        (self.socket_cookie.0 != 0) & (self.durable_fence_token.0 != 0)
    }

    fn read(s: &[u8]) -> Result<FenceCookieKey, Refusal> {
        let socket_cookie = SocketCookie(octets::get_le::<u64>(s, 0));
        let durable_fence_token = DurableFenceToken(octets::get_le::<u64>(s, 8));
        FenceCookieKey::new(socket_cookie, durable_fence_token)
    }

    fn write(self, out: &mut [u8]) {
        octets::put_le::<u64>(out, 0, self.socket_cookie.0);
        octets::put_le::<u64>(out, 8, self.durable_fence_token.0);
    }
}
