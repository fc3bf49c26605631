// The test driver, which the comparison with the original runs beside it: it answers a stream of queries on standard input. A fixed list of
// the original's answers is replayed through it.
//
// A stream is blocks: a u32 length of at most 65,536, then that many bytes of whole queries. A query is a kind (u8), a body length
// (u16) and the body; numbers are little-endian. The answers follow each other with nothing in between. A stream that is malformed
// gets one line on descriptor 2, after the answers to the queries before the fault, and an end; so do input that cannot be read and answers
// that cannot be written.
#![tactic(auto)]

mod codecs;
mod constructors;
mod fields;
mod gates;
mod gathered;
mod leaves;
mod lent;
mod packets;
mod parts;
mod query;
mod verdicts;

ghost use Rattle.std.specs.Prelude.{◌+◌, ◌≤◌, ◌≡◌};

use gathered::Gathered;
use program::{About, Outcome, Stopped, Streams};
use query::{Kind, Queries, Query, QueryError};
use std::io::Read;

// More blocks than any stream has: so the loop over them is seen to end.
const BLOCKS: u64 = 1_000_000_000_000;

// The longest block.
const BLOCK: usize = 65536;

// The answers that are gathered.
type Answers = Gathered<65536>;

// The longest answer. What is gathered is written once there might be no room for it any more.
const LONGEST: usize = 512;

const ABOUT: About<'static> = About {
    name: b"beside",
    help: b"usage: beside < QUERIES\n\nThe test driver: answers a stream of queries, so that the library can be run beside the original it is compared with. Its\nsource has the form of a stream; oracle/compare makes streams.\n\nStatus, as the script threadwicket gives it: 0 where every query was answered; 2 where the stream is malformed or could not be\nread, or the answers not be written, which a line on descriptor 2 says. The program by itself has no status.\n",
    refusal: b"beside: it takes no argument: a stream of queries comes on standard input (beside --help says more)\n",
};

fn main(rt: HostRuntime) {
    let to = Streams {
        out: rt.stdout(),
        err: rt.stderr(),
    };
    let ended = program::instead_of_work(&rt, to, ABOUT).unwrap_or_else(|| answer_stream(
        &mut rt.stdin(),
        to,
    ));
    program::tell(&rt, ended);
}

// Answers the stream, block by block.
fn answer_stream<R: Read>(from: &mut R, to: Streams) -> Result<Outcome, Stopped> {
    let mut space = [0u8; BLOCK];
    let mut answers = Answers::new();
    for _ in 0..BLOCKS {
        match read_block(from, &mut space, to)? {
            Some(block) => answer_all(block, &mut answers, to)?,
            None => return Ok(Outcome::Answered),
        }
    }
    Err(program::complain(to, b"beside: the stream does not end\n"))
}

// Reads the length of a block, if the stream does not end before it.
fn read_length<R: Read>(from: &mut R, to: Streams) -> Result<Option<u32>, Stopped> {
    let mut space = [0u8; 4];
    match program::fill(from, &mut space) {
        Ok([]) => Ok(None),
        Ok([a, b, c, d]) => Ok(Some(u32::from_le_bytes([*a, *b, *c, *d]))),
        Ok(_) => {
            Err(program::complain(to, b"beside: the stream ends inside a block's length\n"))
        }
        Err(_) => Err(program::complain(to, b"beside: the input could not be read\n")),
    }
}

// Reads a block, if the stream does not end before it.
fn read_block<'a, R: Read>(
    from: &mut R,
    space: &'a mut [u8; BLOCK],
    to: Streams,
) -> Result<Option<&'a [u8]>, Stopped> {
    let Some(size) = read_length(from, to)? else {
        return Ok(None);
    };
    let size = size as usize;
    if BLOCK < size {
        return Err(program::complain(to, b"beside: a block is longer than 65536 bytes\n"));
    }
    match program::fill(from, &mut space[..size]) {
        Ok(block) if block.len() == size => Ok(Some(block)),
        Ok(_) => Err(program::complain(to, b"beside: the stream ends inside a block\n")),
        Err(_) => Err(program::complain(to, b"beside: the input could not be read\n")),
    }
}

// Writes the answers that were gathered.
fn flush(out: &mut Answers, to: Streams) -> Result<(), Stopped>
    ensures { out.new.used ≡ 0 }
{
    let written = program::answer(
        to,
        out.bytes(),
        b"beside: the answers could not be written\n",
    );
    out.clear();
    written
}

// A query is at fault: the answers before it are written, and then the complaint.
fn refuse(error: QueryError, out: &mut Answers, to: Streams) -> Stopped
    ensures { out.new.used ≡ 0 }
{
    let _ = flush(out, to);
    match error {
        QueryError::Cut => program::complain(to, b"beside: a query is cut\n"),
        QueryError::Unknown => {
            program::complain(to, b"beside: a query has no such kind or length\n")
        }
    }
}

// Answers a query, and writes what is gathered once another answer might not fit any more: so each answer finds the room that a longest one
// takes.
fn answer_one(
    query: Result<Query<'_>, QueryError>,
    out: &mut Answers,
    to: Streams,
) -> Result<(), Stopped>
    requires { out.old.used ≤ 65024 }
    ensures { out.new.used ≤ 65024 }
{
    if let Err(error) = answer(query, out) {
        return Err(refuse(error, out, to));
    }
    if out.room() < LONGEST {
        flush(out, to)?;
    }
    Ok(())
}

// Answers the queries of a block.
fn answer_all(block: &[u8], out: &mut Answers, to: Streams) -> Result<(), Stopped>
    requires { out.old.used ≤ 65024 }
    ensures { out.new.used ≤ 65024 }
{
    for query in Queries(block) {
        answer_one(query, out, to)?;
    }
    flush(out, to)
}

// Puts the answer to a query after those that are gathered, or nothing where it has none.
fn answer(query: Result<Query<'_>, QueryError>, out: &mut Answers) -> Result<(), QueryError>
    ensures { out.new.used ≤ out.old.used + 512 }
{
    let Query { number, body } = query?;
    match Kind::try_from(number)? {
        Kind::Refresh => leaves::refresh(body, out),
        Kind::Ipv4 => leaves::ipv4(body, out),
        Kind::Ipv6 => leaves::ipv6(body, out),
        Kind::MatchesIpv4 => leaves::matches_ipv4(body, out),
        Kind::MatchesIpv6 => leaves::matches_ipv6(body, out),
        Kind::Classify => lent::answer(body, out, packets::classify),
        Kind::Decode(record) => {
            lent::answer(
                body,
                out,
                |bytes, fields| Ok(codecs::decode(record, bytes, fields)),
            )
        }
        Kind::Encode(record) => {
            lent::answer(
                body,
                out,
                |fields, bytes| Ok(codecs::encode(record, fields, bytes)),
            )
        }
        Kind::Construct(constructor) => constructors::answer(constructor, body, out),
        Kind::Verdict => verdicts::answer(body, out),
        Kind::Gate => lent::answer(body, out, gates::judge),
    }
}
