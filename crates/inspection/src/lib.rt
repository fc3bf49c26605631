// An inspection, 128 bytes: the current record, the mutation authority and perhaps a cookie value, as they stood at one moment. Each
// part is read and written by its own record's functions, and its refusal is the whole's.
#![tactic(auto)]

pub mod inspected;
mod parts;

ghost use Rattle.std.specs.Prelude.{refl, ◌≡◌, length};
ghost use Rattle.std.specs.declared.option.Option.TheVariants.{None, Some};
ghost use Rattle.codec.specs.Codec.{passes};
ghost use Rattle.codec.specs.Answers.{Makes};
ghost use Rattle.codec.specs.Head.{head_numbers};
ghost use Rattle.inspection.specs.Inspection.{inspection, front_tests, inspection_codec};

use crate::parts::{read_at, write_at};
use authority::current::CurrentFenceToken;
use authority::mutation::FenceMutationAuthority;
use codec::{Head, Record, Refusal};
use records::cookie_value::FenceCookieValue;

// An inspection, 128 bytes: the current record, the mutation authority, and the entry that was looked up, if there is one.
#[derive(Clone, Copy, PartialEq, Eq)]
pub struct FenceInspection {
    pub current: CurrentFenceToken,
    pub mutation: FenceMutationAuthority,
    pub entry: Option<FenceCookieValue>,
}

// Mark, version, flag and the zero after it.
fn head_is_right(head: Head) -> bool
    ensures { result ≡ passes front_tests (head_numbers head) }
{
    head.mark == FenceInspection::MARK
        && head.version == FenceInspection::VERSION
        && matches!(head.byte, 0 | 1) & (head.zero == 0)
}

impl FenceInspection {
    // "OEI1", first octet first.
    pub const MARK: u32 = 0x4f45_4931;

    // The version of the layout.
    pub const VERSION: u16 = 5;

    // The record of its three parts; 2 where one of them is unsound.
    pub fn new(
        current: CurrentFenceToken,
        mutation: FenceMutationAuthority,
        entry: Option<FenceCookieValue>,
    ) -> Result<FenceInspection, Refusal>
        ensures { Makes inspection_codec (inspection current mutation entry) result }
    {
        FenceInspection {
            current,
            mutation,
            entry,
        }
        .if_sound()
    }

    // The current record.
    pub fn current(self) -> CurrentFenceToken
        ensures { result ≡ self.current }
    {
        self.current
    }

    // The mutation authority.
    pub fn mutation(self) -> FenceMutationAuthority
        ensures { result ≡ self.mutation }
    {
        self.mutation
    }

    // The inner entry.
    pub fn entry(self) -> Option<FenceCookieValue>
        ensures { result ≡ self.entry }
    {
        self.entry
    }
}

impl Record for FenceInspection {
    ghost codec = { inspection_codec };

    const LEN: usize = 128;

    ghost LEN = { 128 };

    ghost sized = { refl };

    ghost counted = { λ v. elim v.entry as (λ e. length (inspection_codec.fields (inspection v.current v.mutation e)) ≡ length inspection_codec.layout) [ None ↦ refl | Some w ↦ refl ] };

    fn blank() -> FenceInspection {
        FenceInspection {
            current: CurrentFenceToken::blank(),
            mutation: FenceMutationAuthority::blank(),
            entry: None,
        }
    }

    fn is_sound(self) -> bool {
        self.current.is_sound() && (self.mutation.is_sound() && inspected::is_sound(self.entry))
    }

    fn read(s: &[u8]) -> Result<FenceInspection, Refusal> {
        let head = codec::get_head(s);
        if !head_is_right(head) {
            return Err(Refusal::BrokenRule);
        }
        let value = FenceInspection {
            current: read_at(s, 8)?,
            mutation: read_at(s, 32)?,
            entry: inspected::read(head.byte, s)?,
        };
        if octets::is_zero_run(s, 88, 40) {
            Ok(value)
        } else {
            Err(Refusal::BrokenRule)
        }
    }

    fn write(self, out: &mut [u8]) {
        codec::put_head(
            out,
            FenceInspection::MARK,
            FenceInspection::VERSION,
            inspected::flag(self.entry),
        );
        write_at(self.current, out, 8);
        write_at(self.mutation, out, 32);
        inspected::write(self.entry, out);
        octets::put_zeros(out, 88, 40);
    }
}
