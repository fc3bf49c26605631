// The listing of a bundle: one pass over its frames, a line for each packet.
#![tactic(auto)]

mod lines;

ghost use Rattle.std.specs.Prelude.{◌≤◌, ◌≡◌, length};
ghost use Rattle.text.specs.Text.{Wrote};
ghost use Rattle.bundle.specs.Frames.{bundle_of};
ghost use Rattle.listing.specs.Listing.{ends_well, sheet, verdict_line, whole, listing, room_for, Lists};

use bundle::frames::Next;

// The longest bundle.
pub const MAX_BUNDLE: usize = 65_536;

// No listing is longer: at most 10,922 packets with a line of at most 25 bytes each, and a last line of at most 10.
pub const MAX_LISTING: usize = 273_060;

// A listing that was written: how long it is, and whether it is of a whole bundle: one that is not too long, and whose every frame could
// be read. The answer `whole` is a fact of its own: either way the listing was written, and the definition `Lists` gives both.
#[derive(Clone, Copy)]
pub struct Listed {
    pub length: usize,
    pub whole: bool,
}

// Why nothing was written.
#[derive(Clone, Copy, Debug, PartialEq, Eq)]
pub enum ListError {
    // The output is shorter than the listing.
    NoRoom,
}

// Writes a line for each packet and the last line. The table is gathered in `table`.
fn put_lines(out: &mut [u8], input: &[u8], table: &mut [u8]) -> Listed
    requires { length input.now ≤ length table.old }
    ensures wrote { Wrote out.old 0 (sheet verdict_line (bundle_of input.now)) out.new result.length }
    ensures whole_value { result.whole ≡ ends_well (bundle_of input.now).ending }
{
    let mut cursor = bundle::frames::start(input.len());
    let mut ordinal: u64 = 0;
    let mut to = 0;
    // Each turn goes on from where the one before stopped, and there are three outcomes: a packet, and two ends. The packets
    // are no iterator, and their number is counted here: each turn gathers into the caller's table.
    loop {
        match bundle::frames::next_packet(input, table, cursor) {
            Next::Packet(after, len) => {
                let end = after.at;
                let from = end - len;
                let answer = bundle::calls::judge(input, table, after, &input[from..end]);
                to = lines::put_line(out, to, ordinal, answer);
                ordinal += 1;
                cursor = after;
            }
            Next::Ended(last) => {
                let length = text::put_numbered(out, to, b"end ", ordinal);
                return Listed {
                    length,
                    whole: true,
                };
            }
            Next::Bad(last) => {
                let length = text::put_numbered(out, to, b"bad ", last.at as u64);
                return Listed {
                    length,
                    whole: false,
                };
            }
        }
    }
}

// Writes the listing so far as `out` reaches, and answers how long all of it is.
#[tactic(auto, unfolding(crate::specs::Listing::listing, crate::specs::Listing::whole))]
fn put_listing(out: &mut [u8], input: &[u8], table: &mut [u8; MAX_BUNDLE]) -> Listed
    ensures wrote { Wrote out.old 0 (listing input.now) out.new result.length }
    ensures whole_value { result.whole ≡ whole input.now }
{
    if MAX_BUNDLE < input.len() {
        let length = text::put_text(out, 0, b"long\n");
        return Listed {
            length,
            whole: false,
        };
    }
    put_lines(out, input, table)
}

// Refuses an output of so many bytes in which the listing has no room. It is measured only where the longest listing would have none.
fn check_room(input: &[u8], table: &mut [u8; MAX_BUNDLE], room: usize) -> Result<(), ListError>
    ensures { result ≡ room_for (listing input.now) room }
{
    if MAX_LISTING <= room {
        return Ok(());
    }
    let mut nothing = [0u8; 1];
    let listed = put_listing(&mut nothing, input, table);
    if room < listed.length {
        return Err(ListError::NoRoom);
    }
    Ok(())
}

// Writes the listing of a bundle at the start of `out`. Where `out` is shorter it stays as it was.
pub fn list(input: &[u8], out: &mut [u8]) -> Result<Listed, ListError>
    ensures { Lists input.now out.old result out.new }
{
    let mut table = [0u8; MAX_BUNDLE];
    check_room(input, &mut table, out.len())?;
    Ok(put_listing(out, input, &mut table))
}
