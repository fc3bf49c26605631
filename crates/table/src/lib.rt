// A table of cookie values as a controller writes it, one record after the other, and the search in it.
#![tactic(auto)]

ghost use Rattle.std.specs.Prelude.{◌+◌, ◌≤◌, ◌<◌, ◌≡◌, length};
ghost use Rattle.table.specs.Table.{admissible, is_under, FirstUnder};
ghost use Rattle.table.specs.Inner.Search.{FirstFrom};

use codec::Record;
use records::cookie_value::FenceCookieValue;
use records::key::FenceCookieKey;

// The longest table: 4,096 cookie values.
pub const MAX_TABLE_LEN: usize = 163_840;

// Whether a table has whole records alone, and no more than 4,096.
pub fn is_admissible(table: &[u8]) -> bool
    ensures { result ≡ admissible table.now }
{
    table.len() % FenceCookieValue::LEN == 0 && table.len() <= MAX_TABLE_LEN
}

// Two cookie values side by side.
const PAIR: usize = 2 * FenceCookieValue::LEN;

// Whether a cookie value stands under a key: its cookie is at 8, its token at 16.
fn is_under(bytes: &[u8], key: FenceCookieKey) -> bool
    ensures { result ≡ is_under key.socket_cookie.0 key.durable_fence_token.0 bytes.now }
{
    octets::get_le::<u64>(bytes, 8) == key.socket_cookie.0
        && octets::get_le::<u64>(bytes, 16) == key.durable_fence_token.0
}

// From a place after which there is no second whole record: the record there, where it stands under the key; else an empty part, as
// the search answers.
fn find_last(table: &[u8], at: usize, key: FenceCookieKey) -> &[u8]
    requires { (at ≤ length table.now) × (length table.now < at + 80) }
    ensures { FirstFrom at key.socket_cookie.0 key.durable_fence_token.0 table.entry result }
{
    if table.len() - at < FenceCookieValue::LEN {
        return &table[..0];
    }
    let one = &table[at..at + FenceCookieValue::LEN];
    if is_under(one, key) {
        return one;
    }
    &table[..0]
}

// The first whole record of the table under a key, as that part of the table; an empty part where there is none. The records are passed
// two at a time, seven instructions for two (twelve over `step_by`), and by their places: of a chunk of `chunks_exact` std tells the bytes,
// and not where it lies, as `FirstUnder` does.
pub fn find_record(table: &[u8], key: FenceCookieKey) -> &[u8]
    ensures { FirstUnder key.socket_cookie.0 key.durable_fence_token.0 table.entry result }
{
    let pairs = table.len() / PAIR;
    for i in 0..pairs {
        let at = i * PAIR;
        let first = &table[at..at + FenceCookieValue::LEN];
        if is_under(first, key) {
            return first;
        }
        let second = &table[at + FenceCookieValue::LEN..at + PAIR];
        if is_under(second, key) {
            return second;
        }
    }
    find_last(table, pairs * PAIR, key)
}
