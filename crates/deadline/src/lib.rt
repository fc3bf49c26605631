// The refresh-deadline check: whether a requested deadline may take the place of the prior one.
#![tactic(auto)]

ghost use Rattle.std.specs.Prelude.{◌≡◌};
ghost use Rattle.deadline.specs.Deadline.{decision_number, refresh_decision};

use units::BootNs;

// The ceiling on one deadline's lifetime, in nanoseconds of the boot clock.
pub const EGRESS_FENCE_MAX_GATE_LIFETIME_NS: u64 = 300_000_000_000;

// What becomes of a requested deadline.
#[derive(Clone, Copy, Debug, PartialEq, Eq)]
pub enum RefreshDeadlineDecision {
    // The prior deadline had passed when the clock was observed.
    PriorExpired,
    // The requested deadline has passed already, or lies further ahead than the ceiling.
    RequestedDeadlineInvalid,
    // The requested deadline would shorten the live one.
    DeadlineRegressed,
    // The requested deadline may be put in place.
    Apply,
}

impl RefreshDeadlineDecision {
    // The decision's number, by which programs in other languages know it.
    pub fn number(self) -> u8
        ensures { result ≡ decision_number self }
    {
        match self {
            RefreshDeadlineDecision::PriorExpired => 0,
            RefreshDeadlineDecision::RequestedDeadlineInvalid => 1,
            RefreshDeadlineDecision::DeadlineRegressed => 2,
            RefreshDeadlineDecision::Apply => 3,
        }
    }
}

// The clock is observed after the entry has been closed for the change, so an equal prior deadline has passed.
#[tactic(auto, unfolding(crate::specs::Deadline::refresh_decision))]
pub fn evaluate_refresh_deadlines(
    observed_at: BootNs,
    prior_deadline: BootNs,
    requested_deadline: BootNs,
) -> RefreshDeadlineDecision
    ensures { decision_number result ≡ refresh_decision observed_at.0 prior_deadline.0 requested_deadline.0 }
{
    if prior_deadline <= observed_at {
        RefreshDeadlineDecision::PriorExpired
    } else if requested_deadline <= observed_at
        || EGRESS_FENCE_MAX_GATE_LIFETIME_NS < requested_deadline.0 - observed_at.0
    {
        RefreshDeadlineDecision::RequestedDeadlineInvalid
    } else if requested_deadline < prior_deadline {
        RefreshDeadlineDecision::DeadlineRegressed
    } else {
        RefreshDeadlineDecision::Apply
    }
}
