// Queries 32 to 45: the constructors of the seven records. Arguments that are records come as bytes and are decoded first. The answer is
// the constructor's number (u8), what the encoder writes of the record that was made to an output of zeros of the record's length, and
// every field of the record that the decoder gives for those bytes, as `fields` lists them.
ghost use Rattle.std.specs.Prelude.{◌+◌, ◌≤◌};

use crate::query::{Constructor, OfCurrent, OfEntry, OfMutation, QueryError};
use crate::{Answers, fields, parts};
use authority::current::CurrentFenceToken;
use authority::mutation::FenceMutationAuthority;
use codec::{Record, Refusal};
use config::FenceConfig;
use inspection::FenceInspection;
use records::cookie_value::FenceCookieValue;
use records::entry::FenceEntry;
use records::key::FenceCookieKey;
use units::{BootNs, ControlEpoch, DurableFenceToken, RootCgroupId, SocketCookie};

// Puts what a constructor made of a body.
pub(crate) fn answer(
    constructor: Constructor,
    body: &[u8],
    out: &mut Answers,
) -> Result<(), QueryError>
    ensures { out.new.used ≤ out.old.used + 512 }
{
    match constructor {
        Constructor::Current(by) => current(by, body, out),
        Constructor::Mutation(by) => mutation(by, body, out),
        Constructor::Key => key(body, out),
        Constructor::Entry(by) => entry(by, body, out),
        Constructor::CookieValue => cookie_value(body, out),
        Constructor::Config => config(body, out),
        Constructor::Inspection => inspection(body, out),
    }
}

// A body that is N numbers (u64 each).
fn numbers<const N: usize>(body: &[u8]) -> Result<[u64; N], QueryError> {
    if body.len() / 8 != N || body.len() % 8 != 0 {
        return Err(QueryError::Unknown);
    }
    let mut numbers = [0u64; N];
    for i in 0..N {
        numbers[i] = octets::get_le::<u64>(body, 8 * i);
    }
    Ok(numbers)
}

// The record of bytes, the all-zero one where they are refused.
fn decoded<R: Record>(bytes: &[u8]) -> R {
    match R::decode(bytes) {
        Ok(value) => value,
        Err(_) => R::blank(),
    }
}

// Puts a constructor's number, and what is encoded of the record that it made, of N bytes; the all-zero one where it was refused. Gives the
// record that is decoded from that.
fn put_made<R: Record, const N: usize>(made: Result<R, Refusal>, out: &mut Answers) -> R
    requires { N ≤ 128 }
    ensures { out.new.used ≤ out.old.used + (1 + N) }
{
    let (number, value) = parts::told(made, R::blank());
    let mut bytes = [0u8; N];
    let _ = value.encode(&mut bytes);
    out.put(&[number]);
    out.put(&bytes);
    decoded(&bytes)
}

// Query 32: nothing. 33 and 34: a token. 35: a token and a cookie.
fn current(by: OfCurrent, body: &[u8], out: &mut Answers) -> Result<(), QueryError>
    ensures { out.new.used ≤ out.old.used + 512 }
{
    let made = match by {
        OfCurrent::Initial => {
            let [] = numbers::<0>(body)?;
            Ok(CurrentFenceToken::initial())
        }
        OfCurrent::LifecycleOpen => {
            let [token] = numbers::<1>(body)?;
            CurrentFenceToken::lifecycle_open(DurableFenceToken(token))
        }
        OfCurrent::RetirementClosed => {
            let [token] = numbers::<1>(body)?;
            CurrentFenceToken::retirement_closed(DurableFenceToken(token))
        }
        OfCurrent::Registered => {
            let [token, cookie] = numbers::<2>(body)?;
            CurrentFenceToken::registered(DurableFenceToken(token), SocketCookie(cookie))
        }
    };
    let value = put_made::<CurrentFenceToken, 24>(made, out);
    fields::put_current(value, out);
    Ok(())
}

// Query 36: nothing. 37: a generation and a claim.
fn mutation(by: OfMutation, body: &[u8], out: &mut Answers) -> Result<(), QueryError>
    ensures { out.new.used ≤ out.old.used + 512 }
{
    let made = match by {
        OfMutation::Initial => {
            let [] = numbers::<0>(body)?;
            Ok(FenceMutationAuthority::initial())
        }
        OfMutation::New => {
            let [generation, claim] = numbers::<2>(body)?;
            FenceMutationAuthority::new(generation, claim)
        }
    };
    let value = put_made::<FenceMutationAuthority, 16>(made, out);
    fields::put_mutation(value, out);
    Ok(())
}

// Query 38: a cookie and a token.
fn key(body: &[u8], out: &mut Answers) -> Result<(), QueryError>
    ensures { out.new.used ≤ out.old.used + 512 }
{
    let [cookie, token] = numbers::<2>(body)?;
    let made = FenceCookieKey::new(SocketCookie(cookie), DurableFenceToken(token));
    let value = put_made::<FenceCookieKey, 16>(made, out);
    fields::put_key(value, out);
    Ok(())
}

// Query 39: a token. 40: a token, a deadline and an epoch. 41 and 42: a token and an epoch.
fn entry(by: OfEntry, body: &[u8], out: &mut Answers) -> Result<(), QueryError>
    ensures { out.new.used ≤ out.old.used + 512 }
{
    let made = match by {
        OfEntry::InitialClosed => {
            let [token] = numbers::<1>(body)?;
            FenceEntry::initial_closed(DurableFenceToken(token))
        }
        OfEntry::Active => {
            let [token, deadline, epoch] = numbers::<3>(body)?;
            FenceEntry::active(
                DurableFenceToken(token),
                BootNs(deadline),
                ControlEpoch(epoch),
            )
        }
        OfEntry::TerminalClosed => {
            let [token, epoch] = numbers::<2>(body)?;
            FenceEntry::terminal_closed(DurableFenceToken(token), ControlEpoch(epoch))
        }
        OfEntry::Reclaiming => {
            let [token, epoch] = numbers::<2>(body)?;
            FenceEntry::reclaiming(DurableFenceToken(token), ControlEpoch(epoch))
        }
    };
    let value = put_made::<FenceEntry, 32>(made, out);
    fields::put_entry(value, out);
    Ok(())
}

// Query 43: a key's bytes and an entry's.
fn cookie_value(body: &[u8], out: &mut Answers) -> Result<(), QueryError>
    ensures { out.new.used ≤ out.old.used + 512 }
{
    let body = parts::exactly::<48>(body)?;
    let key = decoded::<FenceCookieKey>(&body[..16]);
    let entry = decoded::<FenceEntry>(&body[16..]);
    let made = FenceCookieValue::new(key, entry);
    let value = put_made::<FenceCookieValue, 40>(made, out);
    fields::put_value(value, out);
    Ok(())
}

// Query 44: an endpoint, a root cgroup (u64) and a capacity (u32).
fn config(body: &[u8], out: &mut Answers) -> Result<(), QueryError>
    ensures { out.new.used ≤ out.old.used + 512 }
{
    let body = parts::exactly::<31>(body)?;
    let root = RootCgroupId(octets::get_le::<u64>(body, 19));
    let made = FenceConfig::new(
        parts::endpoint_of(body),
        root,
        octets::get_le::<u32>(body, 27),
    );
    let read = put_made::<FenceConfig, 40>(made, out);
    fields::put_endpoint(read.endpoint(), out);
    out.put(&read.root_cgroup_id().0.to_le_bytes());
    out.put(&read.capacity().to_le_bytes());
    Ok(())
}

// Query 45: a current record's bytes, a mutation record's, whether there is an entry (u8), and a cookie value's.
fn inspection(body: &[u8], out: &mut Answers) -> Result<(), QueryError>
    ensures { out.new.used ≤ out.old.used + 512 }
{
    let body = parts::exactly::<81>(body)?;
    let current = decoded::<CurrentFenceToken>(&body[..24]);
    let mutation = decoded::<FenceMutationAuthority>(&body[24..40]);
    let entry = match body[40] {
        0 => None,
        _ => Some(decoded::<FenceCookieValue>(&body[41..])),
    };
    let made = FenceInspection::new(current, mutation, entry);
    let read = put_made::<FenceInspection, 128>(made, out);
    fields::put_current(read.current(), out);
    fields::put_mutation(read.mutation(), out);
    fields::put_inspected(read.entry(), out);
    Ok(())
}
