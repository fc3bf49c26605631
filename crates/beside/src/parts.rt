// Parts of bodies.
ghost use Rattle.std.specs.Prelude.{◌≤◌, length};

use crate::query::QueryError;
use codec::Refusal;
use endpoint::ProtectedEndpoint;

// A body that has to have N bytes.
pub(crate) fn exactly<const N: usize>(body: &[u8]) -> Result<&[u8; N], QueryError> {
    match body.try_into() {
        Ok(body) => Ok(body),
        Err(_) => Err(QueryError::Unknown),
    }
}

// The first N bytes of a body, and the rest.
pub(crate) fn split_array<const N: usize>(body: &[u8]) -> Result<(&[u8; N], &[u8]), QueryError> {
    body.split_first_chunk::<N>().ok_or(QueryError::Unknown)
}

// The first n bytes of a body, and the rest.
pub(crate) fn split(body: &[u8], n: usize) -> Result<(&[u8], &[u8]), QueryError> {
    body.split_at_checked(n).ok_or(QueryError::Unknown)
}

// The number of what was made, and it; where it was refused, what stands for it.
pub(crate) fn told<V: Copy>(made: Result<V, Refusal>, refused: V) -> (u8, V) {
    match made {
        Ok(value) => (0, value),
        Err(refusal) => ((refusal.number() % 256) as u8, refused),
    }
}

// An endpoint as a query has it: family, sixteen bytes of address, port.
pub(crate) fn endpoint_of(body: &[u8]) -> ProtectedEndpoint
    requires { 19 ≤ length body.now }
{
    ProtectedEndpoint {
        family: octets::get_u8(body, 0),
        address: octets::array_at::<16>(body, 1),
        port: octets::get_le::<u16>(body, 17),
    }
}
