// The state of one registered socket, 32 bytes.
ghost use Rattle.std.specs.Prelude.{refl, ◌≡◌, ◌&&◌, [], ◌∷◌};
ghost use Rattle.codec.specs.Answers.{Builds};
ghost use Rattle.codec.specs.Words.{put, ok, laid};
ghost use Rattle.codec.specs.declared.Refusal.TheVariants.{BrokenRule};
ghost use Rattle.records.specs.Entry.{control_of, Names, odd_token, deadline_fits, epoch_fits, entry_codec, entry_numbers, closed, terminal, reclaiming};
ghost use Rattle.records.specs.declared.entry.FenceEntryState.TheVariants.{InitialClosed, Active, TerminalClosed, Reclaiming};

use codec::{Record, Refusal};
use std::error::Error;
use std::fmt;
use units::{BootNs, ControlEpoch, DurableFenceToken};

// The state of an entry.
#[derive(Clone, Copy, Debug, PartialEq, Eq, Hash)]
pub enum FenceEntryState {
    // Registered, and not yet opened.
    InitialClosed,
    // Open until its deadline.
    Active,
    // Closed for good.
    TerminalClosed,
    // Closed, and about to be deleted.
    Reclaiming,
}

// A control word that stands for no state.
#[derive(Clone, Copy, Debug, PartialEq, Eq, Hash)]
pub struct UnknownControl(pub u32);

// State, token, deadline and epoch of a registered socket.
#[derive(Clone, Copy, PartialEq, Eq)]
pub struct FenceEntry {
    pub state: FenceEntryState,
    pub durable_fence_token: DurableFenceToken,
    pub deadline_boot_ns: BootNs,
    pub control_epoch: ControlEpoch,
}

// The numbers of the layout's fields, as bytes or a constructor's arguments give them.
#[derive(Clone, Copy, PartialEq, Eq)]
pub struct EntryFields {
    pub zeros: u32,
    pub control: u32,
    pub durable_fence_token: DurableFenceToken,
    pub deadline_boot_ns: BootNs,
    pub control_epoch: ControlEpoch,
}

impl fmt::Display for UnknownControl {
    fn fmt<W: fmt::Write>(&self, f: &mut fmt::Formatter<W>) -> fmt::Result {
        write!(f, "no state has the control word {:#010x}", self.0)
    }
}

impl Error for UnknownControl {}

// A record with such a word breaks its rule.
impl From<UnknownControl> for Refusal {
    ghost from_gives = { λ _ e. e ≡ BrokenRule };

    fn from(_e: UnknownControl) -> Refusal {
        Refusal::BrokenRule
    }
}

impl TryFrom<u32> for FenceEntryState {
    type Error = UnknownControl;

    ghost try_from_gives = { Names };

    #[tactic(auto, unfolding(crate::specs::Entry::state_listed))]
    fn try_from(control: u32) -> Result<Self, UnknownControl> {
        match control {
            FenceEntryState::INITIAL_CLOSED => Ok(FenceEntryState::InitialClosed),
            FenceEntryState::ACTIVE => Ok(FenceEntryState::Active),
            FenceEntryState::TERMINAL_CLOSED => Ok(FenceEntryState::TerminalClosed),
            FenceEntryState::RECLAIMING => Ok(FenceEntryState::Reclaiming),
            _ => Err(UnknownControl(control)),
        }
    }
}

impl FenceEntryState {
    // The control words, one for each state.
    pub const INITIAL_CLOSED: u32 = 0x4f45_0101;

    // Open until its deadline.
    pub const ACTIVE: u32 = 0x4f45_0102;

    // Closed for good.
    pub const TERMINAL_CLOSED: u32 = 0x4f45_0103;

    // Closed, and about to be deleted.
    pub const RECLAIMING: u32 = 0x4f45_01ff;

    // The word that stands for the state in a record.
    pub fn control(self) -> u32
        ensures { result ≡ control_of self }
    {
        match self {
            FenceEntryState::InitialClosed => FenceEntryState::INITIAL_CLOSED,
            FenceEntryState::Active => FenceEntryState::ACTIVE,
            FenceEntryState::TerminalClosed => FenceEntryState::TERMINAL_CLOSED,
            FenceEntryState::Reclaiming => FenceEntryState::RECLAIMING,
        }
    }

    // Whether the state is any but Active.
    pub fn is_closed(self) -> bool
        ensures { result ≡ closed self }
    {
        self != FenceEntryState::Active
    }

    // What a state asks of token, deadline and epoch, in an entry and in a cookie value.
    #[tactic(auto, unfolding(crate::specs::Entry::deadline_fits, crate::specs::Entry::epoch_fits))]
    pub(crate) fn fits(
        self,
        token: DurableFenceToken,
        deadline: BootNs,
        epoch: ControlEpoch,
    ) -> bool
        ensures { result ≡ (odd_token token.0 && (deadline_fits (control_of self) deadline.0 && epoch_fits (control_of self) epoch.0)) }
    {
        let dated = match self {
            FenceEntryState::Active => (deadline.0 != 0) & (epoch.0 != 0),
            FenceEntryState::InitialClosed => {
                (deadline.0 == 0) & (epoch.0 == FenceEntry::INITIAL_EPOCH)
            }
            FenceEntryState::TerminalClosed | FenceEntryState::Reclaiming => {
                (deadline.0 == 0) & (epoch.0 != 0)
            }
        };
        dated & (token.0 % 2 != 0)
    }
}

impl EntryFields {
    // Whether they obey the record's rule.
    pub fn obey_rule(self) -> bool
        ensures { result ≡ ok entry_codec (entry_numbers self) }
    {
        self.to_record().is_ok()
    }

    // The record that they stand for, or 2 where they break its rule.
    pub fn to_record(self) -> Result<FenceEntry, Refusal>
        ensures { Builds entry_codec (entry_numbers self) result }
    {
        if self.zeros != 0 {
            return Err(Refusal::BrokenRule);
        }
        FenceEntry {
            state: FenceEntryState::try_from(self.control)?,
            durable_fence_token: self.durable_fence_token,
            deadline_boot_ns: self.deadline_boot_ns,
            control_epoch: self.control_epoch,
        }
        .if_sound()
    }

    // The numbers put at the start of a slice, each in its field; octets past the end are dropped. It does not ask for the rule.
    pub fn write(self, out: &mut [u8])
        ensures { out.new ≡ put out.old 0 (laid entry_codec.layout (entry_numbers self)) }
    {
        octets::put_le::<u32>(out, 0, self.zeros);
        octets::put_le::<u32>(out, 4, self.control);
        octets::put_le::<u64>(out, 8, self.durable_fence_token.0);
        octets::put_le::<u64>(out, 16, self.deadline_boot_ns.0);
        octets::put_le::<u64>(out, 24, self.control_epoch.0);
    }
}

impl FenceEntry {
    // The epoch of a fresh registration.
    pub const INITIAL_EPOCH: u64 = 1;

    // A fresh registration, or 2 where the token is not odd.
    pub fn initial_closed(durable_fence_token: DurableFenceToken) -> Result<FenceEntry, Refusal>
        ensures { Builds entry_codec (0 ∷ control_of InitialClosed ∷ durable_fence_token.0 ∷ 0 ∷ 1 ∷ []) result }
    {
        FenceEntry {
            state: FenceEntryState::InitialClosed,
            durable_fence_token,
            deadline_boot_ns: BootNs(0),
            control_epoch: ControlEpoch(FenceEntry::INITIAL_EPOCH),
        }
        .if_sound()
    }

    // An open entry, or 2 where the token is not odd, or deadline or epoch is 0.
    pub fn active(
        durable_fence_token: DurableFenceToken,
        deadline_boot_ns: BootNs,
        control_epoch: ControlEpoch,
    ) -> Result<FenceEntry, Refusal>
        ensures { Builds entry_codec (0 ∷ control_of Active ∷ durable_fence_token.0 ∷ deadline_boot_ns.0 ∷ control_epoch.0 ∷ []) result }
    {
        FenceEntry {
            state: FenceEntryState::Active,
            durable_fence_token,
            deadline_boot_ns,
            control_epoch,
        }
        .if_sound()
    }

    // An entry closed for good, or 2 where the token is not odd or the epoch is 0.
    pub fn terminal_closed(
        durable_fence_token: DurableFenceToken,
        control_epoch: ControlEpoch,
    ) -> Result<FenceEntry, Refusal>
        ensures { Builds entry_codec (0 ∷ control_of TerminalClosed ∷ durable_fence_token.0 ∷ 0 ∷ control_epoch.0 ∷ []) result }
    {
        FenceEntry {
            state: FenceEntryState::TerminalClosed,
            durable_fence_token,
            deadline_boot_ns: BootNs(0),
            control_epoch,
        }
        .if_sound()
    }

    // An entry about to be deleted, or 2 where the token is not odd or the epoch is 0.
    pub fn reclaiming(
        durable_fence_token: DurableFenceToken,
        control_epoch: ControlEpoch,
    ) -> Result<FenceEntry, Refusal>
        ensures { Builds entry_codec (0 ∷ control_of Reclaiming ∷ durable_fence_token.0 ∷ 0 ∷ control_epoch.0 ∷ []) result }
    {
        FenceEntry {
            state: FenceEntryState::Reclaiming,
            durable_fence_token,
            deadline_boot_ns: BootNs(0),
            control_epoch,
        }
        .if_sound()
    }

    // The state.
    pub fn state(self) -> FenceEntryState
        ensures { result ≡ self.state }
    {
        self.state
    }

    // The durable token that the record stands under.
    pub fn durable_fence_token(self) -> DurableFenceToken
        ensures { result ≡ self.durable_fence_token }
    {
        self.durable_fence_token
    }

    // The deadline; of a sound entry that is not Active, 0.
    pub fn deadline_boot_ns(self) -> BootNs
        ensures { result ≡ self.deadline_boot_ns }
    {
        self.deadline_boot_ns
    }

    // The epoch of the last change.
    pub fn control_epoch(self) -> ControlEpoch
        ensures { result ≡ self.control_epoch }
    {
        self.control_epoch
    }

    // Whether the state is any but Active.
    pub fn is_closed(self) -> bool
        ensures { result ≡ closed self.state }
    {
        self.state.is_closed()
    }

    // Whether the entry is closed for good.
    pub fn is_terminal(self) -> bool
        ensures { result ≡ terminal self.state }
    {
        self.state == FenceEntryState::TerminalClosed
    }

    // Whether the entry is about to be deleted.
    pub fn is_reclaiming(self) -> bool
        ensures { result ≡ reclaiming self.state }
    {
        self.state == FenceEntryState::Reclaiming
    }

    // The numbers that the record is written with.
    pub fn fields(self) -> EntryFields
        ensures { entry_numbers result ≡ entry_codec.fields self }
    {
        EntryFields {
            zeros: 0,
            control: self.state.control(),
            durable_fence_token: self.durable_fence_token,
            deadline_boot_ns: self.deadline_boot_ns,
            control_epoch: self.control_epoch,
        }
    }
}

impl Record for FenceEntry {
    ghost codec = { entry_codec };

    const LEN: usize = 32;

    ghost LEN = { 32 };

    ghost sized = { refl };

    ghost counted = { λ v. refl };

    fn blank() -> FenceEntry {
        FenceEntry {
            state: FenceEntryState::InitialClosed,
            durable_fence_token: DurableFenceToken(0),
            deadline_boot_ns: BootNs(0),
            control_epoch: ControlEpoch(0),
        }
    }

    fn is_sound(self) -> bool {
        self.state.fits(
            self.durable_fence_token,
            self.deadline_boot_ns,
            self.control_epoch,
        )
    }

    fn read(s: &[u8]) -> Result<FenceEntry, Refusal> {
        EntryFields {
            zeros: octets::get_le::<u32>(s, 0),
            control: octets::get_le::<u32>(s, 4),
            durable_fence_token: DurableFenceToken(octets::get_le::<u64>(s, 8)),
            deadline_boot_ns: BootNs(octets::get_le::<u64>(s, 16)),
            control_epoch: ControlEpoch(octets::get_le::<u64>(s, 24)),
        }
        .to_record()
    }

    fn write(self, out: &mut [u8]) {
        self.fields().write(out);
    }
}
