// Queries as a block has them, and what each asks.
ghost use Rattle.std.specs.Prelude.{◌<◌, length, IfSome};
ghost use Rattle.std.specs.Iterator.{at_most};

// Why a query gets no answer.
#[derive(Clone, Copy)]
pub(crate) enum QueryError {
    // The block ends inside it.
    Cut,
    // There is no such kind, or its body has another length.
    Unknown,
}

// A query: the number of its kind, and its body.
#[derive(Clone, Copy)]
pub(crate) struct Query<'a> {
    pub(crate) number: u8,
    pub(crate) body: &'a [u8],
}

// The queries of a block. One that is cut is the last.
#[derive(Drop)]
pub(crate) struct Queries<'a>(pub(crate) &'a [u8]);

impl<'a> Iterator for Queries<'a> {
    type Item = Result<Query<'a>, QueryError>;

    ghost remaining = { λ s. at_most (length s.0.now) };

    fn next(&mut self) -> Option<Result<Query<'a>, QueryError>> {
        if self.0.is_empty() {
            return None;
        }
        match split_query(self.0) {
            Some((query, rest)) => {
                self.0 = rest;
                Some(Ok(query))
            }
            None => {
                self.0 = &[];
                Some(Err(QueryError::Cut))
            }
        }
    }
}

// The first query of a block, and what comes after it.
fn split_query(block: &[u8]) -> Option<(Query<'_>, &[u8])>
    ensures { IfSome result (λ parts. length parts.1.now < length block.now) }
{
    let (head, rest) = block.split_first_chunk::<3>()?;
    let [number, low, high] = *head;
    let (body, rest) = rest.split_at_checked(u16::from_le_bytes([low, high]) as usize)?;
    Some((Query { number, body }, rest))
}

// What a query asks.
#[derive(Clone, Copy)]
pub(crate) enum Kind {
    // Of `leaves`.
    Refresh,
    Ipv4,
    Ipv6,
    MatchesIpv4,
    MatchesIpv6,
    // Of `packets`.
    Classify,
    // Of `codecs`.
    Decode(Record),
    Encode(Record),
    // Of `constructors`.
    Construct(Constructor),
    // Of `verdicts`.
    Verdict,
    // Of `gates`.
    Gate,
}

// The records that have functions for C.
#[derive(Clone, Copy)]
pub(crate) enum Record {
    Current,
    Mutation,
    Key,
    Entry,
    CookieValue,
    Config,
    Inspection,
}

// A constructor, by the record that it makes.
#[derive(Clone, Copy)]
pub(crate) enum Constructor {
    Current(OfCurrent),
    Mutation(OfMutation),
    Key,
    Entry(OfEntry),
    CookieValue,
    Config,
    Inspection,
}

// How a current fence token is made.
#[derive(Clone, Copy)]
pub(crate) enum OfCurrent {
    Initial,
    LifecycleOpen,
    RetirementClosed,
    Registered,
}

// How a mutation authority is made.
#[derive(Clone, Copy)]
pub(crate) enum OfMutation {
    Initial,
    New,
}

// How an entry is made.
#[derive(Clone, Copy)]
pub(crate) enum OfEntry {
    InitialClosed,
    Active,
    TerminalClosed,
    Reclaiming,
}

// By the number of the kind.
impl TryFrom<u8> for Kind {
    type Error = QueryError;

    fn try_from(number: u8) -> Result<Kind, QueryError> {
        let kind = match number {
            1 => Kind::Refresh,
            2 => Kind::Ipv4,
            3 => Kind::Ipv6,
            4 => Kind::MatchesIpv4,
            5 => Kind::MatchesIpv6,
            8 => Kind::Classify,
            16..=22 => Kind::Decode(Record::try_from(number - 16)?),
            24..=30 => Kind::Encode(Record::try_from(number - 24)?),
            32..=45 => Kind::Construct(Constructor::try_from(number)?),
            48 => Kind::Verdict,
            56 => Kind::Gate,
            _ => return Err(QueryError::Unknown),
        };
        Ok(kind)
    }
}

// By its place in the list of the records, from 0.
impl TryFrom<u8> for Record {
    type Error = QueryError;

    fn try_from(place: u8) -> Result<Record, QueryError> {
        let record = match place {
            0 => Record::Current,
            1 => Record::Mutation,
            2 => Record::Key,
            3 => Record::Entry,
            4 => Record::CookieValue,
            5 => Record::Config,
            6 => Record::Inspection,
            _ => return Err(QueryError::Unknown),
        };
        Ok(record)
    }
}

// By the number of the kind.
impl TryFrom<u8> for Constructor {
    type Error = QueryError;

    fn try_from(number: u8) -> Result<Constructor, QueryError> {
        let constructor = match number {
            32 => Constructor::Current(OfCurrent::Initial),
            33 => Constructor::Current(OfCurrent::LifecycleOpen),
            34 => Constructor::Current(OfCurrent::RetirementClosed),
            35 => Constructor::Current(OfCurrent::Registered),
            36 => Constructor::Mutation(OfMutation::Initial),
            37 => Constructor::Mutation(OfMutation::New),
            38 => Constructor::Key,
            39 => Constructor::Entry(OfEntry::InitialClosed),
            40 => Constructor::Entry(OfEntry::Active),
            41 => Constructor::Entry(OfEntry::TerminalClosed),
            42 => Constructor::Entry(OfEntry::Reclaiming),
            43 => Constructor::CookieValue,
            44 => Constructor::Config,
            45 => Constructor::Inspection,
            _ => return Err(QueryError::Unknown),
        };
        Ok(constructor)
    }
}
