// Which addresses may be punch targets (inbound.rs, is_punchable_quic with is_global_unicast_v4, is_global_unicast_v6 and
// is_unicast_v4): one table of ranges for both families, in which the longest range that holds the address decides.
#![tactic(auto)]

ghost use Rattle.std.specs.Prelude.{◌≡◌, Bool, ◌+◌, ◌*◌, ◌<◌, ◌≤◌, ◌^◌, ◌-◌, length};
ghost use Rattle.address.specs.LeadingBits.{same_leading_bits};
ghost use Rattle.address.specs.Ranges.{lies_in, first_row, longest_row, table, verdict_of, permits};
ghost use Rattle.address.specs.Words.{InBits, judged_as, passes, may_be_target};
ghost use Rattle.address.specs.Multiaddr.{big_endian, number, is_name, ends_well, has_form, parsed};

// An IP address: 32 bits, or two halves of 64 bits.
#[derive(Clone, Copy, PartialEq, Eq)]
pub enum Ip {
    V4(u32),
    V6(u64, u64),
}

// A prefix and its length in bits. An IPv6 prefix has two halves.
#[derive(Clone, Copy)]
pub enum Prefix {
    Net4(u32, u32),
    Net6(u64, u64, u32),
}

// When the addresses of a range may be targets: always, only with private targets on, or never.
#[derive(Clone, Copy)]
pub enum Verdict {
    Always,
    PrivateOnly,
    Never,
}

#[derive(Clone, Copy)]
pub struct Range(pub Prefix, pub Verdict);

const ROWS: usize = 33;

// The longest prefixes of a family stand first, so the first row in which an address lies is the longest.
const RANGES: [Range; ROWS] = [
    Range(Prefix::Net4(0xc000_0009, 32), Verdict::Always),
    Range(Prefix::Net4(0xc000_000a, 32), Verdict::Always),
    Range(Prefix::Net4(0x0000_0000, 32), Verdict::Never),
    Range(Prefix::Net4(0xffff_ffff, 32), Verdict::Never),
    Range(Prefix::Net4(0xc000_0000, 24), Verdict::PrivateOnly),
    Range(Prefix::Net4(0xc000_0200, 24), Verdict::PrivateOnly),
    Range(Prefix::Net4(0xc633_6400, 24), Verdict::PrivateOnly),
    Range(Prefix::Net4(0xcb00_7100, 24), Verdict::PrivateOnly),
    Range(Prefix::Net4(0xc0a8_0000, 16), Verdict::PrivateOnly),
    Range(Prefix::Net4(0xa9fe_0000, 16), Verdict::PrivateOnly),
    Range(Prefix::Net4(0xc612_0000, 15), Verdict::PrivateOnly),
    Range(Prefix::Net4(0xac10_0000, 12), Verdict::PrivateOnly),
    Range(Prefix::Net4(0x6440_0000, 10), Verdict::PrivateOnly),
    Range(Prefix::Net4(0x0000_0000, 8), Verdict::PrivateOnly),
    Range(Prefix::Net4(0x0a00_0000, 8), Verdict::PrivateOnly),
    Range(Prefix::Net4(0x7f00_0000, 8), Verdict::PrivateOnly),
    Range(Prefix::Net4(0xe000_0000, 4), Verdict::Never),
    Range(Prefix::Net4(0xf000_0000, 4), Verdict::PrivateOnly),
    Range(Prefix::Net4(0x0000_0000, 0), Verdict::Always),
    Range(Prefix::Net6(0x2001_0001_0000_0000, 1, 128), Verdict::Always),
    Range(Prefix::Net6(0x2001_0001_0000_0000, 2, 128), Verdict::Always),
    Range(Prefix::Net6(0x0000_0000_0000_0000, 0, 128), Verdict::Never),
    Range(Prefix::Net6(0x2001_0004_0112_0000, 0, 48), Verdict::Always),
    Range(Prefix::Net6(0x2001_0003_0000_0000, 0, 32), Verdict::Always),
    Range(
        Prefix::Net6(0x2001_0db8_0000_0000, 0, 32),
        Verdict::PrivateOnly,
    ),
    Range(Prefix::Net6(0x2001_0020_0000_0000, 0, 28), Verdict::Always),
    Range(Prefix::Net6(0x2001_0030_0000_0000, 0, 28), Verdict::Always),
    Range(
        Prefix::Net6(0x2001_0000_0000_0000, 0, 23),
        Verdict::PrivateOnly,
    ),
    Range(
        Prefix::Net6(0x3fff_0000_0000_0000, 0, 20),
        Verdict::PrivateOnly,
    ),
    Range(
        Prefix::Net6(0x2002_0000_0000_0000, 0, 16),
        Verdict::PrivateOnly,
    ),
    Range(Prefix::Net6(0xff00_0000_0000_0000, 0, 8), Verdict::Never),
    Range(Prefix::Net6(0x2000_0000_0000_0000, 0, 3), Verdict::Always),
    Range(
        Prefix::Net6(0x0000_0000_0000_0000, 0, 0),
        Verdict::PrivateOnly,
    ),
];

// Whether the leading `len` bits of two numbers agree. A shift by the whole width is an error, so no bit and all bits stand apart.
// Two widths, not one: masks of 32 and of 64 bits are the form that is asked for.
fn same_leading_bits_32(a: u32, p: u32, len: u32) -> bool
    ensures { result ≡ same_leading_bits 32 len a p }
{
    if len == 0 {
        return true;
    }
    if 32 <= len {
        return a == p;
    }
    let mask = 0xffff_ffffu32 << (32 - len);
    (a & mask) == (p & mask)
}

fn same_leading_bits_64(a: u64, p: u64, len: u32) -> bool
    ensures { result ≡ same_leading_bits 64 len a p }
{
    if len == 0 {
        return true;
    }
    if 64 <= len {
        return a == p;
    }
    let mask = 0xffff_ffff_ffff_ffffu64 << (64 - len);
    (a & mask) == (p & mask)
}

fn same_leading_bits_128(ah: u64, al: u64, ph: u64, pl: u64, len: u32) -> bool
    ensures { result ≡ same_leading_bits 128 len (ah * 2 ^ 64 + al) (ph * 2 ^ 64 + pl) }
{
    if len <= 64 {
        return same_leading_bits_64(ah, ph, len);
    }
    ah == ph && same_leading_bits_64(al, pl, len - 64)
}

fn lies_in(ip: Ip, prefix: Prefix) -> bool
    ensures { result ≡ lies_in ip prefix }
{
    match (ip, prefix) {
        (Ip::V4(a), Prefix::Net4(p, len)) => same_leading_bits_32(a, p, len),
        (Ip::V6(ah, al), Prefix::Net6(ph, pl, len)) => same_leading_bits_128(ah, al, ph, pl, len),
        _ => false,
    }
}

// The verdict of the first row in which the address lies.
fn search(rows: &[Range], ip: Ip) -> Verdict
    ensures { result ≡ (first_row ip rows.now).1 }
{
    for row in rows {
        if lies_in(ip, row.0) {
            return row.1;
        }
    }
    Verdict::Never
}

pub fn verdict_of(ip: Ip) -> Verdict
    ensures { result ≡ verdict_of ip }
{
    search(&RANGES, ip)
}

fn permits(verdict: Verdict, private: bool) -> bool
    ensures { result ≡ permits private verdict }
{
    match verdict {
        Verdict::Always => true,
        Verdict::PrivateOnly => private,
        Verdict::Never => false,
    }
}

// With private targets on, an IPv4-mapped address is judged as the address it carries.
fn judged_as(ip: Ip, private: bool) -> Ip
    ensures value { result ≡ judged_as private ip }
    ensures bits { InBits result }
{
    match ip {
        Ip::V6(0, l) if private && l >> 32 == 0xffff => Ip::V4((l % 0x1_0000_0000) as u32),
        other => other,
    }
}

// Whether an address may be a punch target.
pub fn eligible(ip: Ip, private: bool) -> bool
    ensures { result ≡ may_be_target private ip }
{
    permits(verdict_of(judged_as(ip, private)), private)
}

// The number that up to eight bytes stand for, the first byte first.
fn big_endian(s: &[u8]) -> u64
    requires { length s.now ≤ 8 }
    ensures value { result ≡ big_endian 0 s.now }
    ensures small { result < 2 ^ (8 * length s.now) }
{
    let mut v: u64 = 0;
    for b in s {
        v = v * 256 + u64::from(*b);
    }
    v
}

// The number that the bytes from `a` up to `e` stand for.
fn number_at(s: &[u8], a: usize, e: usize) -> u64
    requires { (a ≤ e) × ((e ≤ length s.now) × (e ≤ a + 8)) }
    ensures value { result ≡ number a e s.now }
    ensures small { result < 2 ^ (8 * (e - a)) }
{
    big_endian(&s[a..e])
}

// The bytes beside the IP: the family's code, udp with a port of two bytes, and quic-v1.
const BESIDE: usize = 7;

// What stands before a peer name's bytes: p2p and a length byte.
const NAME_HEAD: usize = 3;

const LONGEST_NAME: usize = 127;

// The most bytes of an address of each family.
pub const LONGEST_V4: usize = 4 + BESIDE + NAME_HEAD + LONGEST_NAME;

pub const LONGEST_V6: usize = 16 + BESIDE + NAME_HEAD + LONGEST_NAME;

// Whether the bytes are p2p, a length byte of 1 to 127, as many bytes and nothing more.
fn is_name(s: &[u8]) -> bool
    ensures { result ≡ is_name s.now }
{
    match s {
        [0xa5, 0x03, n, name @ ..] => {
            let n = usize::from(*n);
            1 <= n && n <= LONGEST_NAME && name.len() == n
        }
        _ => false,
    }
}

// Whether the bytes behind quic-v1 are none, or a peer name.
fn ends_well(s: &[u8]) -> bool
    ensures { result ≡ ends_well s.now }
{
    s.is_empty() || is_name(s)
}

// Whether the bytes are a family's code, `n` bytes of IP, udp with a port, quic-v1, and a peer name or nothing more.
fn has_form(s: &[u8], family: u8, n: usize) -> bool
    requires { n ≤ 16 }
    ensures { result ≡ has_form family n s.now }
{
    let end = n + BESIDE;
    end <= s.len()
        && s[0] == family
        && matches!(&s[n + 1..end], [0x91, 0x02, _, _, 0xcd, 0x03])
        && ends_well(&s[end..])
}

pub fn parse(s: &[u8]) -> Option<(Ip, u16)>
    ensures { result ≡ parsed s.now }
{
    if has_form(s, 0x04, 4) {
        let a = number_at(s, 1, 5);
        let port = number_at(s, 7, 9);
        return Some((Ip::V4(a as u32), port as u16));
    }
    if has_form(s, 0x29, 16) {
        let h = number_at(s, 1, 9);
        let l = number_at(s, 9, 17);
        let port = number_at(s, 19, 21);
        return Some((Ip::V6(h, l), port as u16));
    }
    None
}

// The table says of every address what the words say.
pub fn table_is_rule()
    ensures { (private : Bool) (ip : Ip) → InBits ip → permits private (verdict_of ip) ≡ passes private ip }
{}

// In the table's order the first row that holds an address is the longest that does.
pub fn first_match_is_longest()
    ensures { (ip : Ip) → first_row ip table ≡ longest_row ip table }
{}
