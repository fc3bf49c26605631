// The five meanings of a 64-bit number, kept apart as the source's field names keep them apart. A call that hands over one for
// another is turned down by the compiler.
#![tactic(auto)]

// A moment, or a deadline, in nanoseconds of the suspend-aware boot clock.
#[derive(Clone, Copy, PartialEq, Eq, PartialOrd, Ord, Hash)]
pub struct BootNs(pub u64);

// The kernel's number of a socket; 0 names none.
#[derive(Clone, Copy, PartialEq, Eq, PartialOrd, Ord, Hash)]
pub struct SocketCookie(pub u64);

// The durable fence token: odd while a socket's lifecycle is open, even once it is retired.
#[derive(Clone, Copy, PartialEq, Eq, PartialOrd, Ord, Hash)]
pub struct DurableFenceToken(pub u64);

// The control epoch of a socket's entry: 1 at registration, and never 0.
#[derive(Clone, Copy, PartialEq, Eq, PartialOrd, Ord, Hash)]
pub struct ControlEpoch(pub u64);

// The inode number of the root cgroup that the hook is attached to.
#[derive(Clone, Copy, PartialEq, Eq, PartialOrd, Ord, Hash)]
pub struct RootCgroupId(pub u64);
