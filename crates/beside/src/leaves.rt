// Queries 1 to 5: deadlines, and the endpoint's constructors and match tests.
ghost use Rattle.std.specs.Prelude.{◌+◌, ◌≤◌};

use crate::query::QueryError;
use crate::{Answers, fields, parts};
use codec::Refusal;
use endpoint::ProtectedEndpoint;

// Query 1: the deadline check for C, `threadwicket_refresh`: the clock, the prior and the requested deadline. The answer is 01's number of
// the decision.
pub(crate) fn refresh(body: &[u8], out: &mut Answers) -> Result<(), QueryError>
    ensures { out.new.used ≤ out.old.used + 512 }
{
    let body = parts::exactly::<24>(body)?;
    let number = export::threadwicket_refresh(
        octets::get_le::<u64>(body, 0),
        octets::get_le::<u64>(body, 8),
        octets::get_le::<u64>(body, 16),
    );
    out.put(&[(number % 256) as u8]);
    Ok(())
}

// Puts what a constructor gave: its number, then the endpoint as a query has it, the all-zero one where it was refused.
fn put_made(made: Result<ProtectedEndpoint, Refusal>, out: &mut Answers)
    ensures { out.new.used ≤ out.old.used + 512 }
{
    let (number, endpoint) = parts::told(made, ProtectedEndpoint::blank());
    let mut bytes = [0u8; 20];
    bytes[0] = number;
    bytes[1..].copy_from_slice(&fields::endpoint_bytes(endpoint));
    out.put(&bytes);
}

// Query 2: an IPv4 address and a port.
pub(crate) fn ipv4(body: &[u8], out: &mut Answers) -> Result<(), QueryError>
    ensures { out.new.used ≤ out.old.used + 512 }
{
    let body = parts::exactly::<6>(body)?;
    let address = octets::array_at::<4>(body, 0);
    put_made(
        ProtectedEndpoint::ipv4(address, octets::get_le::<u16>(body, 4)),
        out,
    );
    Ok(())
}

// Query 3: an IPv6 address and a port.
pub(crate) fn ipv6(body: &[u8], out: &mut Answers) -> Result<(), QueryError>
    ensures { out.new.used ≤ out.old.used + 512 }
{
    let body = parts::exactly::<18>(body)?;
    let address = octets::array_at::<16>(body, 0);
    put_made(
        ProtectedEndpoint::ipv6(address, octets::get_le::<u16>(body, 16)),
        out,
    );
    Ok(())
}

// Query 4: an endpoint, and an IPv4 address and a port. The answer is 1 where they match.
pub(crate) fn matches_ipv4(body: &[u8], out: &mut Answers) -> Result<(), QueryError>
    ensures { out.new.used ≤ out.old.used + 512 }
{
    let body = parts::exactly::<25>(body)?;
    let endpoint = parts::endpoint_of(body);
    let address = octets::array_at::<4>(body, 19);
    let answer = endpoint.matches_ipv4(address, octets::get_le::<u16>(body, 23));
    out.put(&[answer as u8]);
    Ok(())
}

// Query 5: an endpoint, and an IPv6 address and a port.
pub(crate) fn matches_ipv6(body: &[u8], out: &mut Answers) -> Result<(), QueryError>
    ensures { out.new.used ≤ out.old.used + 512 }
{
    let body = parts::exactly::<37>(body)?;
    let endpoint = parts::endpoint_of(body);
    let address = octets::array_at::<16>(body, 19);
    let answer = endpoint.matches_ipv6(address, octets::get_le::<u16>(body, 35));
    out.put(&[answer as u8]);
    Ok(())
}
