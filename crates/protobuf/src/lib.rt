// The fields of a HolePunch message, by their tags (the protobuf encoding; message.rs).
#![tactic(auto)]

ghost use Rattle.std.specs.Prelude.{◌≡◌, ◌≤◌};
ghost use Rattle.wire.specs.Varint.{varint_of};
ghost use Rattle.protobuf.specs.Fields.{varint_field, fixed_field, bytes_field, payload_of, field_of};

// The largest field number.
const MAX_FIELD: u64 = 536_870_911;

// What a field says: the type of the message, where the bytes of an address stand, or neither; and how long it is.
#[derive(Clone, Copy)]
pub enum Field {
    Typed { value: u64, size: usize },
    Address { start: usize, len: usize },
    Other { size: usize },
}

// Field n of wire type 0, behind a tag of t bytes.
#[tactic(auto, using(crate::proofs::Fields::size_of))]
fn varint_field(n: u64, t: usize, s: &[u8]) -> Option<Field>
    requires { t ≤ 10 }
    ensures { result ≡ varint_field n t (varint_of s.now) }
{
    let (value, next) = wire::first_varint(s)?;
    let size = t + next;
    Some(match n {
        1 => Field::Typed { value, size },
        _ => Field::Other { size },
    })
}

// A field of k bytes, of wire type 1 or 5.
fn fixed_field(k: usize, t: usize, s: &[u8]) -> Option<Field>
    requires { (t ≤ 10) × (k ≤ 8) }
    ensures { result ≡ fixed_field k t s.now }
{
    (k <= s.len()).then_some(Field::Other { size: t + k })
}

// Field n of wire type 2.
#[tactic(auto, using(crate::proofs::Fields::size_of))]
fn bytes_field(n: u64, t: usize, s: &[u8]) -> Option<Field>
    requires { t ≤ 10 }
    ensures { result ≡ bytes_field n t s.now (varint_of s.now) }
{
    let (value, next) = wire::first_varint(s)?;
    if ((s.len() - next) as u64) < value {
        return None;
    }
    let start = t + next;
    let len = value as usize;
    Some(match n {
        2 => Field::Address { start, len },
        _ => Field::Other { size: start + len },
    })
}

// Field n of wire type w.
fn payload(n: u64, w: u64, t: usize, s: &[u8]) -> Option<Field>
    requires { t ≤ 10 }
    ensures { result ≡ payload_of n w t s.now }
{
    match w {
        0 => varint_field(n, t, s),
        1 => fixed_field(8, t, s),
        2 => bytes_field(n, t, s),
        5 => fixed_field(4, t, s),
        _ => None,
    }
}

// The field that stands first; none where it is malformed.
#[tactic(auto, unfolding(crate::specs::Fields::field_of), using(crate::proofs::Fields::size_of))]
pub fn first_field(s: &[u8]) -> Option<Field>
    ensures { result ≡ field_of s.now }
{
    let (tag, t) = wire::first_varint(s)?;
    match tag / 8 {
        n @ 1..=MAX_FIELD => payload(n, tag % 8, t, &s[t..]),
        _ => None,
    }
}
