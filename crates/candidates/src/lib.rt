// Which addresses become punch targets, and which of one's own are offered (inbound.rs, select_punch_candidates and
// bound_punch_candidates; agent.rs, punch_candidates). What is kept is an address list again.
#![tactic(auto)]

ghost use Rattle.std.specs.Prelude.{◌≡◌, ℕ, ◌<◌, ◌≤◌, ◌^◌};
ghost use mathlib.Core.List.{List, [], foldl};
ghost use Rattle.prelude.specs.Lists.{count};
ghost use Rattle.prelude.specs.Choice.{no};
ghost use Rattle.wire.specs.Lists.{entries, listed};
ghost use Rattle.candidates.specs.Entries.{same_family, same_bytes, contains};
ghost use Rattle.candidates.specs.Selection.{usual, usually, most, held, held_terms, counted, room_for, bounded, punchable, selected, own, packed, answered};
ghost use Rattle.candidates.specs.OnePass.{tallied, suits, wanted_from, kept_from};
ghost use Rattle.candidates.specs.Laws.{AllPass, KeepsLimits, DropsOnlyAtLimits, Short, IsListOf, UsualNumbers};
ghost use Rattle.candidates.specs.declared.Limits.{Limits};
ghost use Rattle.candidates.specs.declared.Terms.{Terms};

use address::Ip;
use refusal::Refusal;
use wire::Packed;

// The usual limits: the most candidates that are kept, in all, of a family and of an IP; and the lowest port.
pub const MAX_PUNCH_CANDIDATES: usize = 8;

pub const MAX_PUNCH_CANDIDATES_PER_FAMILY: usize = MAX_PUNCH_CANDIDATES / 2;

const MAX_PUNCH_CANDIDATES_PER_IP: usize = 2;

const LOWEST_PORT: u16 = 1024;

// An address stands in a list behind its length.
const LENGTH_SIZE: usize = 2;

// Room for a list of as many of the longest addresses.
pub const CAPACITY: usize = MAX_PUNCH_CANDIDATES * (LENGTH_SIZE + address::LONGEST_V6);

// The addresses kept, as an address list from the first byte on.
pub type Chosen = Packed<CAPACITY>;

#[derive(Clone, Copy)]
pub struct Limits {
    pub total: usize,
    pub family: usize,
    pub ip: usize,
    pub port: u16,
}

// What the peer's candidates are chosen by: the limits, and whether a private address may be a target.
#[derive(Clone, Copy)]
pub struct Terms {
    pub limits: Limits,
    pub private: bool,
}

// How many addresses there are, how many of a family, and how many of an IP.
#[derive(Clone, Copy, Default)]
pub struct Counts {
    pub total: usize,
    pub family: usize,
    pub ip: usize,
}

// Whose list it is: the peer's, one's own, or one that is only to be bounded.
#[derive(Clone, Copy)]
pub enum Source {
    Peer { private: bool },
    Own,
    Any,
}

fn same_family(a: Ip, b: Ip) -> bool
    ensures { result ≡ same_family a b }
{
    matches!(
        (a, b),
        (Ip::V4(_), Ip::V4(_)) | (Ip::V6(_, _), Ip::V6(_, _))
    )
}

// One address more is counted.
fn tally(n: Counts, ip: Ip, a: &[u8]) -> Counts
    requires { (n.total < 2 ^ 63) × ((n.family < 2 ^ 63) × (n.ip < 2 ^ 63)) }
    ensures { result ≡ tallied ip n a.now }
{
    let total = n.total + 1;
    match address::parse(a) {
        None => Counts { total, ..n },
        Some((other, _)) => Counts {
            total,
            family: n.family + usize::from(same_family(ip, other)),
            ip: n.ip + usize::from(ip == other),
        },
    }
}

// The addresses of a list, those of the IP's family, and those of the IP.
fn tally_all(list: &[u8], ip: Ip) -> Counts
    ensures { result ≡ counted ip (entries list.now) }
{
    let mut n = Counts::default();
    for a in wire::entries(list) {
        n = tally(n, ip, a);
    }
    n
}

// Whether a list has an address of the same bytes.
fn holds(list: &[u8], a: &[u8]) -> bool
    ensures { result ≡ contains a.now (entries list.now) }
{
    wire::entries(list).any(|x| a == x)
}

impl Limits {
    pub fn usual() -> Self
        ensures { result ≡ usual }
    {
        Limits {
            total: MAX_PUNCH_CANDIDATES,
            family: MAX_PUNCH_CANDIDATES_PER_FAMILY,
            ip: MAX_PUNCH_CANDIDATES_PER_IP,
            port: LOWEST_PORT,
        }
    }

    // A total over the most that a list has room for counts as the most.
    fn held(self) -> Self
        ensures { result ≡ held self }
    {
        Limits {
            total: self.total.min(MAX_PUNCH_CANDIDATES),
            ..self
        }
    }

    // Whether the port is high enough and no limit is met.
    fn room_for(self, n: Counts, port: u16) -> bool
        ensures { result ≡ room_for self n port }
    {
        self.port <= port && n.total < self.total && n.family < self.family && n.ip < self.ip
    }
}

impl Terms {
    // The usual limits.
    pub fn usual(private: bool) -> Self
        ensures { result ≡ usually private }
    {
        Terms {
            limits: Limits::usual(),
            private,
        }
    }
}

// Whether an address with this IP comes into question at all, behind those kept. One's own address is kept once.
fn suits_source(source: Source, kept: &[u8], a: &[u8], ip: Ip) -> bool
    ensures { result ≡ suits source (entries kept.now) a.now ip }
{
    match source {
        Source::Peer { private } => address::eligible(ip, private),
        Source::Own => !holds(kept, a),
        Source::Any => true,
    }
}

// Whether an address is kept behind those kept so far.
fn wanted(l: Limits, source: Source, kept: &[u8], a: &[u8]) -> bool
    ensures { result ≡ wanted_from l source (entries kept.now) a.now }
{
    match address::parse(a) {
        None => false,
        Some((ip, port)) => {
            suits_source(source, kept, a, ip) && l.room_for(tally_all(kept, ip), port)
        }
    }
}

// The entries of a list that are kept, in one pass.
fn choose(l: Limits, list: &[u8], source: Source) -> Chosen
    requires { l.total ≤ most }
    ensures { result ≡ packed (listed (foldl (kept_from l source) [] (entries list.now))) }
{
    let Chosen { mut bytes, mut len } = Chosen::empty();
    for a in wire::entries(list) {
        if wanted(l, source, &bytes[..len], a) {
            wire::put_entry(a, &mut bytes, len);
            len += LENGTH_SIZE + a.len();
        }
    }
    Chosen { bytes, len }
}

fn chosen_from(l: Limits, list: &[u8], source: Source) -> Result<Chosen, Refusal>
    ensures { result ≡ answered list.now (foldl (kept_from (held l) source) [] (entries list.now)) }
{
    if wire::is_broken(list) {
        return Err(Refusal::BrokenList);
    }
    Ok(choose(l.held(), list, source))
}

// The peer's addresses that may be targets, bounded. Limits are any: a total over the most counts as the most, here and below.
pub fn select_punch_candidates(list: &[u8], terms: Terms) -> Result<Chosen, Refusal>
    ensures { result ≡ answered list.now (selected (held_terms terms) (entries list.now)) }
{
    let Terms { limits, private } = terms;
    chosen_from(limits, list, Source::Peer { private })
}

// One's own addresses, each form once, bounded.
pub fn own_punch_candidates(list: &[u8], limits: Limits) -> Result<Chosen, Refusal>
    ensures { result ≡ answered list.now (own (held limits) (entries list.now)) }
{
    chosen_from(limits, list, Source::Own)
}

// The first addresses that the limits allow, whatever their ranges.
pub fn bound_punch_candidates(list: &[u8], limits: Limits) -> Result<Chosen, Refusal>
    ensures { result ≡ answered list.now (bounded (held limits) (entries list.now)) }
{
    chosen_from(limits, list, Source::Any)
}

// ---- Theorems, for any limits

// The peer's candidates keep to the limits, and each may be a target.
pub fn selection_keeps_limits()
    ensures { (t : Terms) (xs : List (List ℕ)) → KeepsLimits t.limits xs (selected t xs) × AllPass (punchable t.private) (selected t xs) }
{}

// One's own candidates keep to the limits, and none is there twice.
pub fn own_keeps_limits()
    ensures { (l : Limits) (xs : List (List ℕ)) → KeepsLimits l xs (own l xs) × ((a : List ℕ) → count (same_bytes a) (own l xs) ≤ 1) }
{}

// A target is dropped only where a limit was met before it.
pub fn selection_is_complete()
    ensures { (t : Terms) → DropsOnlyAtLimits t.limits (selected t) (λ before a. punchable t.private a) }
{}

// A new form of one's own is dropped only where a limit was met before it.
pub fn own_is_complete()
    ensures { (l : Limits) → DropsOnlyAtLimits l (own l) (λ before a. no (contains a before)) }
{}

// Candidates are no longer than their family's longest, and make a list that is as short as their family's limit allows.
pub fn candidates_are_short()
    ensures selected { (t : Terms) (xs : List (List ℕ)) → Short t.limits (selected t xs) }
    ensures own { (l : Limits) (xs : List (List ℕ)) → Short l (own l xs) }
{}

// What is chosen is a list that is not broken, of the addresses kept.
pub fn chosen_is_a_list()
    ensures selected { (t : Terms) (xs : List (List ℕ)) → IsListOf (selected t xs) (packed (listed (selected t xs))) }
    ensures own { (l : Limits) (xs : List (List ℕ)) → IsListOf (own l xs) (packed (listed (own l xs))) }
{}

// The usual limits are 8 in all, 4 of a family, 2 of an IP and ports from 1024, and a list under them has at most 1,192 bytes.
pub fn usual_numbers()
    ensures { UsualNumbers }
{}
