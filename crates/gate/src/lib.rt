// The joined gate: one call decides what becomes of a packet, from bytes as a hook finds them.
#![tactic(auto)]

ghost use Rattle.std.specs.Prelude.{◌≡◌, [], ◌∷◌};
ghost use Rattle.packet.specs.Answers as reading;
ghost use Rattle.gate.specs.Gate.{same_address, matches, stale, expired, unread, view_of, rules, first_rule, gate_of, answer_of, call_of};
ghost use Rattle.gate.specs.Inner.Steps.{source_of, sought_record, rule_number, from, numbered, lookup, registration, Ruled};

use authority::current::CurrentFenceToken;
use codec::Record;
use config::FenceConfig;
use endpoint::ProtectedEndpoint;
use packet::{PacketEndpointDisposition, PacketReading};
use records::cookie_value::FenceCookieValue;
use records::key::FenceCookieKey;
use units::{BootNs, RootCgroupId, SocketCookie};
use verdict::FenceVerdict;

// An address of either family, in network order.
pub type SocketAddress = [u8; 16];

// The socket that a packet leaves from. An IPv4 address stands in the first four bytes of `address`. The family is a number and no enum:
// hooks give every value of it, and each has an answer.
#[derive(Clone, Copy, PartialEq, Eq)]
pub struct Socket {
    pub family: u8,
    pub address: SocketAddress,
    pub port: u16,
}

// A packet that leaves a socket, and what the hook finds beside it: the configuration's and the current record's bytes, and the table of
// cookie values, as they stand in the maps; the root to which the hook is attached; the socket's cookie; the boot time.
#[derive(Clone, Copy)]
pub struct GateCall<'a> {
    pub config: &'a [u8],
    pub attachment: RootCgroupId,
    pub socket: Socket,
    pub packet: &'a [u8],
    pub cookie: SocketCookie,
    pub current: &'a [u8],
    pub table: &'a [u8],
    pub now_boot_ns: BootNs,
}

// The gate's answer for a packet.
#[derive(Clone, Copy, Debug, PartialEq, Eq)]
pub struct GateAnswer {
    pub verdict: FenceVerdict,
    // The IPv6 extension headers passed; 0 where the packet was not read.
    pub headers: u8,
}

// The thirteen rules in their order, by what each finds.
#[derive(Clone, Copy, Debug, PartialEq, Eq)]
enum GateRule {
    ConfigUndecoded,
    AttachedElsewhere,
    PacketUnrelated,
    PacketIndeterminate,
    CookieZero,
    CurrentUndecoded,
    TableInadmissible,
    RecordMissing,
    RecordUndecoded,
    SocketStale,
    EntryClosed,
    DeadlinePast,
    NothingAmiss,
}

// Which rule answers a call, and what the packet reads as; where it was not read, as the endpoint's, with no header.
#[derive(Clone, Copy, Debug, PartialEq, Eq)]
struct Ruling {
    rule: GateRule,
    reading: PacketReading,
}

// ---- what the rules ask

// The addresses of a family are compared where they stand, as one number or two: octet by octet, the call takes longer.
#[tactic(auto, using(crate::proofs::AddressLaws::same_four))]
fn same_address(family: u8, a: &[u8], b: &[u8]) -> bool
    ensures { result ≡ same_address family a.now b.now }
{
    if family == ProtectedEndpoint::IPV4 {
        return octets::get_le::<u32>(a, 0) == octets::get_le::<u32>(b, 0);
    }
    if octets::get_le::<u64>(a, 0) == octets::get_le::<u64>(b, 0) {
        return octets::get_le::<u64>(a, 8) == octets::get_le::<u64>(b, 8);
    }
    false
}

impl Socket {
    // Whether the socket is bound to the endpoint.
    #[tactic(auto, unfolding(crate::specs::Gate::matches))]
    pub fn matches(self, endpoint: ProtectedEndpoint) -> bool
        ensures { result ≡ matches self endpoint }
    {
        self.family == endpoint.family
            && self.port == endpoint.port
            && same_address(endpoint.family, &self.address, &endpoint.address)
    }
}

// The reading of a packet that is not read: it counts as the endpoint's.
fn unread() -> PacketReading
    ensures { reading.answer_of result ≡ unread }
{
    PacketReading {
        disposition: PacketEndpointDisposition::Protected,
        headers: 0,
    }
}

// Rules 3 and 4: the packet is read where the socket differs.
#[tactic(auto, unfolding(crate::specs::Inner::Steps::source_of))]
fn read_source(socket: Socket, packet: &[u8], endpoint: ProtectedEndpoint) -> PacketReading
    ensures { reading.answer_of result ≡ source_of socket packet.now endpoint }
{
    if socket.matches(endpoint) {
        return unread();
    }
    packet::classify_l3_udp_source(packet, endpoint)
}

// Rule 8: token 0 seeks nothing.
#[tactic(auto, unfolding(crate::specs::Inner::Steps::sought_record))]
fn seek(table: &[u8], key: FenceCookieKey) -> &[u8]
    ensures { result.now ≡ sought_record key.socket_cookie.0 key.durable_fence_token.0 table.now }
{
    if key.durable_fence_token.0 == 0 {
        return &table[..0];
    }
    table::find_record(table, key)
}

// Rule 10: no socket is registered, or another one.
fn is_stale(registered: SocketCookie, cookie: SocketCookie) -> bool
    ensures { result ≡ stale registered.0 cookie.0 }
{
    registered.0 == 0 || cookie != registered
}

// Rule 12: at the deadline, or past it.
fn is_expired(deadline: BootNs, now_boot_ns: BootNs) -> bool
    ensures { result ≡ expired deadline.0 now_boot_ns.0 }
{
    deadline <= now_boot_ns
}

// ---- the rules in their order

// Rules 9 to 13: the record that was found under the key.
fn judge(
    found: &[u8],
    registered: SocketCookie,
    cookie: SocketCookie,
    now_boot_ns: BootNs,
) -> GateRule
    ensures { rule_number result ≡ (first_rule (from 9 rules) (registration (found.now ∷ []) registered.0 cookie.0 now_boot_ns.0)).number }
{
    let Ok(value) = FenceCookieValue::decode(found) else {
        return GateRule::RecordUndecoded;
    };
    if is_stale(registered, cookie) {
        return GateRule::SocketStale;
    }
    if value.state.is_closed() {
        return GateRule::EntryClosed;
    }
    if is_expired(value.deadline_boot_ns, now_boot_ns) {
        return GateRule::DeadlinePast;
    }
    GateRule::NothingAmiss
}

// Rules 5 to 13: the packet is the endpoint's, and its socket is looked up.
fn authorize(cookie: SocketCookie, current: &[u8], table: &[u8], now_boot_ns: BootNs) -> GateRule
    ensures { rule_number result ≡ (first_rule (from 5 rules) (view_of (lookup cookie.0 current.now table.now now_boot_ns.0))).number }
{
    if cookie.0 == 0 {
        return GateRule::CookieZero;
    }
    let Ok(published) = CurrentFenceToken::decode(current) else {
        return GateRule::CurrentUndecoded;
    };
    if !table::is_admissible(table) {
        return GateRule::TableInadmissible;
    }
    let key = FenceCookieKey {
        socket_cookie: cookie,
        durable_fence_token: published.durable_fence_token,
    };
    let found = seek(table, key);
    if found.is_empty() {
        return GateRule::RecordMissing;
    }
    judge(
        found,
        published.registered_socket_cookie,
        cookie,
        now_boot_ns,
    )
}

// A rule that answers before the packet is read.
fn before_packet(rule: GateRule) -> Ruling
    ensures { (result.rule ≡ rule) × (reading.answer_of result.reading ≡ unread) }
{
    Ruling {
        rule,
        reading: unread(),
    }
}

impl GateRule {
    // The rule's verdict.
    #[tactic(auto, unfolding(crate::specs::Gate::rules))]
    fn verdict(self) -> FenceVerdict
        ensures { result ≡ (numbered (rule_number self) rules).verdict }
    {
        match self {
            GateRule::PacketUnrelated => FenceVerdict::PassUnrelated,
            GateRule::CookieZero => FenceVerdict::DropCookieZero,
            GateRule::RecordMissing => FenceVerdict::DropMissing,
            GateRule::SocketStale => FenceVerdict::DropStaleToken,
            GateRule::EntryClosed => FenceVerdict::DropClosed,
            GateRule::DeadlinePast => FenceVerdict::DropExpired,
            GateRule::NothingAmiss => FenceVerdict::Allow,
            GateRule::ConfigUndecoded
            | GateRule::AttachedElsewhere
            | GateRule::PacketIndeterminate
            | GateRule::CurrentUndecoded
            | GateRule::TableInadmissible
            | GateRule::RecordUndecoded => FenceVerdict::DropMalformed,
        }
    }
}

impl GateCall<'_> {
    // The first of the thirteen rules that applies.
    fn first_rule(&self) -> Ruling
        ensures { Ruled (call_of self.now) result }
    {
        let Ok(configuration) = FenceConfig::decode(self.config) else {
            return before_packet(GateRule::ConfigUndecoded);
        };
        if self.attachment != configuration.root_cgroup_id {
            return before_packet(GateRule::AttachedElsewhere);
        }
        let reading = read_source(self.socket, self.packet, configuration.endpoint);
        let rule = match reading.disposition {
            PacketEndpointDisposition::Unrelated => GateRule::PacketUnrelated,
            PacketEndpointDisposition::Indeterminate => GateRule::PacketIndeterminate,
            PacketEndpointDisposition::Protected => {
                authorize(self.cookie, self.current, self.table, self.now_boot_ns)
            }
        };
        Ruling { rule, reading }
    }
}

// The verdict on a packet that leaves from a socket, by the first of thirteen rules that applies.
pub fn gate(call: &GateCall) -> GateAnswer
    ensures { answer_of result ≡ gate_of (call_of call.now) }
{
    let ruling = call.first_rule();
    GateAnswer {
        verdict: ruling.rule.verdict(),
        headers: ruling.reading.headers,
    }
}
