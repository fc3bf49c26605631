// The frames of a bundle: what stands at an offset, what is in force there, and the next packet.
ghost use Rattle.std.specs.Prelude.{◌≡◌, ◌≤◌, ◌-◌, length};
ghost use Rattle.bundle.specs.Frames.{frame_of, frame_at};
ghost use Rattle.bundle.specs.Cursor.{start_of, next_at, next_is};
ghost use Rattle.bundle.specs.Inner.Steps.{frame_is, size};

use authority::current::CurrentFenceToken;
use codec::Record;
use config::FenceConfig;
use records::cookie_value::FenceCookieValue;

// A frame's body length and kind.
const HEAD: usize = 6;

// The body of a call.
pub(crate) const CALL: usize = 43;

// What stands at an offset.
#[derive(Clone, Copy)]
enum Frame {
    Config,
    Current,
    CookieValue,
    Call,
    // A packet of so many bytes.
    Packet(usize),
    // Nothing more.
    End,
    // A cut frame, an unknown kind, or a wrong body length.
    Bad,
}

// Where reading stands: the offset, how many bytes of the table are gathered, and the places in the input of the bodies in force. A body
// that has not come yet has the end of the input for its place. The table's bytes stand beside it: they are the caller's, of any length,
// and `next_packet` and `judge` promise what they do with those.
#[derive(Clone, Copy)]
pub struct Cursor {
    pub at: usize,
    pub gathered: usize,
    pub config: usize,
    pub current: usize,
    pub call: usize,
}

// What comes next from a cursor on.
#[derive(Clone, Copy)]
pub enum Next {
    // A packet, with the cursor after it: so many bytes, the last before that offset.
    Packet(Cursor, usize),
    // The end, with the cursor there.
    Ended(Cursor),
    // A bad frame, with the cursor at its offset.
    Bad(Cursor),
}

// The frame of a kind and a body length. The kind is the number that the bytes have; what it stands for is the answer.
#[tactic(auto, unfolding(crate::specs::Frames::frame_of, crate::specs::Frames::exactly))]
fn frame_of(kind: u16, len: usize) -> Frame
    ensures { frame_is result ≡ frame_of kind len }
{
    match (kind, len) {
        (1, FenceConfig::LEN) => Frame::Config,
        (2, CurrentFenceToken::LEN) => Frame::Current,
        (3, FenceCookieValue::LEN) => Frame::CookieValue,
        (4, CALL) => Frame::Call,
        (5, _) => Frame::Packet(len),
        _ => Frame::Bad,
    }
}

// The frame at an offset. It lies inside.
#[tactic(auto, unfolding(crate::specs::Frames::frame_at))]
fn frame_at(input: &[u8], at: usize) -> Frame
    ensures found { frame_is result ≡ frame_at input.now at }
    ensures inside { size (frame_is result) ≤ length input.now - at }
{
    if input.len() <= at {
        return Frame::End;
    }
    let left = input.len() - at;
    if left < HEAD {
        return Frame::Bad;
    }
    let len = octets::get_le::<u32>(input, at) as usize;
    if left - HEAD < len {
        return Frame::Bad;
    }
    frame_of(octets::get_le::<u16>(input, at + 4), len)
}

// Before the first frame of an input of `end` bytes.
pub fn start(end: usize) -> Cursor
    ensures { result ≡ start_of end }
{
    Cursor {
        at: 0,
        gathered: 0,
        config: end,
        current: end,
        call: end,
    }
}

// Reads on from a cursor until a packet comes, or nothing more. Cookie values on the way are gathered in `table`, so far as it reaches.
pub fn next_packet(input: &[u8], table: &mut [u8], from: Cursor) -> Next
    ensures { next_is input.now table.new result ≡ next_at input.now (record { cursor = from; table = table.old }) }
{
    let mut cursor = from;
    // Nothing is counted: how far a turn goes on is the frame's own length.
    loop {
        let at = cursor.at;
        match frame_at(input, at) {
            Frame::Config => {
                cursor.at = at + (HEAD + FenceConfig::LEN);
                cursor.config = at + HEAD;
            }
            Frame::Current => {
                cursor.at = at + (HEAD + CurrentFenceToken::LEN);
                cursor.current = at + HEAD;
            }
            Frame::CookieValue => {
                let body = at + HEAD;
                let end = at + (HEAD + FenceCookieValue::LEN);
                let to = cursor.gathered;
                cursor.gathered = text::put_text(table, to, &input[body..end]);
                cursor.at = end;
            }
            Frame::Call => {
                cursor.at = at + (HEAD + CALL);
                cursor.call = at + HEAD;
            }
            Frame::Packet(len) => {
                cursor.at = at + (HEAD + len);
                return Next::Packet(cursor, len);
            }
            Frame::End => return Next::Ended(cursor),
            Frame::Bad => return Next::Bad(cursor),
        }
    }
}
