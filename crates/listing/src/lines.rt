// The lines of a listing, each written at a place of the output.
ghost use Rattle.std.specs.Prelude.{◌≡◌, ◌++◌};
ghost use Rattle.text.specs.Text.{ascii, Wrote};
ghost use Rattle.listing.specs.Listing.{name_of, slot_text, line};

use gate::GateAnswer;
use verdict::FenceVerdict;

// The verdict's name, with a space on each side: one text, and so one copy for a line.
#[tactic(auto, unfolding(crate::specs::Listing::name_of))]
fn spaced_name_of(verdict: FenceVerdict) -> &'static [u8]
    ensures { result.now ≡ ascii " " ++ name_of verdict ++ ascii " " }
{
    match verdict {
        FenceVerdict::PassUnrelated => b" PassUnrelated ",
        FenceVerdict::Allow => b" Allow ",
        FenceVerdict::DropCookieZero => b" DropCookieZero ",
        FenceVerdict::DropMissing => b" DropMissing ",
        FenceVerdict::DropClosed => b" DropClosed ",
        FenceVerdict::DropExpired => b" DropExpired ",
        FenceVerdict::DropStaleToken => b" DropStaleToken ",
        FenceVerdict::DropMalformed => b" DropMalformed ",
    }
}

// The counter slot, or `-`.
#[tactic(auto, unfolding(crate::specs::Listing::slot_text))]
fn put_slot(out: &mut [u8], at: usize, slot: Option<u32>) -> usize
    ensures { Wrote out.old at (slot_text slot) out.new result }
{
    match slot {
        None => text::put_byte(out, at, b'-'),
        Some(n) => text::put_decimal(out, at, n as u64),
    }
}

// The line of a packet: its ordinal, verdict, header count, and slot or `-`.
pub(crate) fn put_line(out: &mut [u8], at: usize, ordinal: u64, answer: GateAnswer) -> usize
    ensures { Wrote out.old at (line ordinal answer.verdict answer.headers) out.new result }
{
    let verdict = answer.verdict;
    let slot = verdict.counter_slot();
    let to = text::put_decimal(out, at, ordinal);
    let to = text::put_text(out, to, spaced_name_of(verdict));
    let to = text::put_decimal(out, to, answer.headers as u64);
    let to = text::put_byte(out, to, b' ');
    let to = put_slot(out, to, slot);
    text::put_byte(out, to, b'\n')
}
