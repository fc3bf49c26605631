// Queries 8, 16 to 30 and 56: the functions for C that write to memory that is lent to them. The body begins with the length of that
// memory, `room` (u8); all of it holds a5 before the call. The answer is the function's number (u16), then all of the memory.
ghost use Rattle.std.specs.Prelude.{◌+◌, ◌≤◌};

use crate::Answers;
use crate::query::QueryError;

// Calls a function on what follows `room` and on the memory that is lent to it.
pub(crate) fn answer<F: FnOnce(&[u8], &mut [u8]) -> Result<u32, QueryError>>(
    body: &[u8],
    out: &mut Answers,
    call: F,
) -> Result<(), QueryError>
    requires { F.IsAlwaysCallable call }
    ensures { out.new.used ≤ out.old.used + 512 }
{
    let (room, input) = body.split_first().ok_or(QueryError::Unknown)?;
    let mut space = [0xa5u8; 256];
    let lent = &mut space[..*room as usize];
    let number = call(input, lent)?;
    match u16::try_from(number) {
        Ok(number) => {
            out.put(&number.to_le_bytes());
            out.put(lent);
            Ok(())
        }
        Err(_) => Err(QueryError::Unknown),
    }
}
