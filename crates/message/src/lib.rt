// The DCUtR HolePunch message (message.rs): written and read, with its addresses as an address list.
#![tactic(auto)]

ghost use Rattle.std.specs.Prelude.{◌≡◌, true, ◌++◌, ◌+◌, ◌≤◌, length};
ghost use Rattle.std.proofs.lemmas.List.Edits.{sets};
ghost use Rattle.wire.specs.Varint.{encoded};
ghost use Rattle.wire.specs.Frame.{max_message_size};
ghost use Rattle.wire.specs.Lists.{entries, listed};
ghost use Rattle.message.specs.Message.{type_number, Numbers, content_of, accepted, addresses, with_room, decode_of, decode_into};
ghost use Rattle.message.specs.Encoding.{type_field, address_field, address_fields, encode_of, encode_into, frame_encode_of, frame_encode_into};

use protobuf::Field;
use refusal::Refusal;
use wire::MAX_MESSAGE_SIZE;

// The type of a message, with its number.
#[derive(Clone, Copy)]
pub enum Kind {
    Connect = 100,
    Sync = 300,
}

impl TryFrom<u64> for Kind {
    type Error = Refusal;

    ghost try_from_gives = { Numbers };

    fn try_from(number: u64) -> Result<Kind, Refusal> {
        match number {
            100 => Ok(Kind::Connect),
            300 => Ok(Kind::Sync),
            _ => Err(Refusal::WrongType),
        }
    }
}

// ---- Reading

// The type, and how long the list of addresses is; or why the message is refused.
#[tactic(auto, using(crate::proofs::Scan::typed_within, crate::proofs::Scan::address_within, crate::proofs::Scan::other_within))]
fn measure(s: &[u8]) -> Result<(Kind, usize), Refusal>
    ensures { result ≡ with_room (content_of s.now) }
{
    // A while: a field says how long it is only when it is read.
    let mut rest = s;
    let mut kind = None;
    let mut size: usize = 0;
    while let Some(field) = protobuf::first_field(rest) {
        match field {
            Field::Typed { value, size: n } => {
                kind = Some(Kind::try_from(value)?);
                rest = &rest[n..];
            }
            Field::Address { start, len } => {
                size += 2 + len;
                rest = &rest[start + len..];
            }
            Field::Other { size: n } => rest = &rest[n..],
        }
    }
    if !rest.is_empty() {
        return Err(Refusal::Malformed);
    }
    Ok((kind.ok_or(Refusal::NoType)?, size))
}

// The addresses of an accepted message, as a list.
#[tactic(auto, using(crate::proofs::Scan::typed_within, crate::proofs::Scan::address_within, crate::proofs::Scan::other_within))]
fn put_addresses(s: &[u8], out: &mut [u8])
    requires { (length s.now ≤ max_message_size) × (accepted (content_of s.now) ≡ true) }
    ensures { out.new ≡ sets out.old 0 (listed (addresses (content_of s.now))) }
{
    // A while, as in measure.
    let mut rest = s;
    let mut p: usize = 0;
    while let Some(field) = protobuf::first_field(rest) {
        match field {
            Field::Address { start, len } => {
                wire::put_entry(&rest[start..start + len], out, p);
                p += 2 + len;
                rest = &rest[start + len..];
            }
            Field::Typed { size, .. } | Field::Other { size } => rest = &rest[size..],
        }
    }
}

// Reads a message: its type, and its addresses as a list from the first byte of out on.
pub fn decode(message: &[u8], out: &mut [u8]) -> Result<(Kind, usize), Refusal>
    ensures answer { result ≡ decode_of message.now (length out.old) }
    ensures stored { out.new ≡ decode_into message.now out.old }
{
    if MAX_MESSAGE_SIZE < message.len() {
        return Err(Refusal::MessageTooLong);
    }
    let (kind, size) = measure(message)?;
    if out.len() < size {
        return Err(Refusal::OutputTooShort);
    }
    put_addresses(message, out);
    Ok((kind, size))
}

// ---- Writing

fn type_number(kind: Kind) -> u64
    ensures { result ≡ type_number kind }
{
    kind as u64
}

// How many bytes an address takes as a field.
fn field_len(address: &[u8]) -> usize
    ensures { result ≡ length (address_field address.now) }
{
    let n = address.len();
    1 + wire::varint_len(n as u64) + n
}

// How many bytes the addresses of a list take as fields.
fn fields_size(list: &[u8]) -> usize
    ensures { result ≡ length (address_fields (entries list.now)) }
{
    let mut size: usize = 0;
    for address in wire::entries(list) {
        size += field_len(address);
    }
    size
}

// How long the message is, or why it is not written.
fn message_size(kind: Kind, list: &[u8]) -> Result<usize, Refusal>
    ensures { result ≡ encode_of kind list.now max_message_size }
{
    if wire::is_broken(list) {
        return Err(Refusal::BrokenList);
    }
    let rest = fields_size(list);
    // Tested first, so that the sum below fits.
    if MAX_MESSAGE_SIZE < rest {
        return Err(Refusal::MessageTooLong);
    }
    let number = type_number(kind);
    let size = 1 + wire::varint_len(number) + rest;
    if MAX_MESSAGE_SIZE < size {
        return Err(Refusal::MessageTooLong);
    }
    Ok(size)
}

// An address as a field; what would stand past the end is left out.
fn put_field(address: &[u8], out: &mut [u8], at: usize)
    ensures { out.new ≡ sets out.old at (address_field address.now) }
{
    if out.len() <= at {
        return;
    }
    let n = address.len() as u64;
    out[at] = 0x12;
    wire::put_varint(n, out, at + 1);
    let p = at + 1 + wire::varint_len(n);
    wire::put_bytes(address, out, p);
}

// The addresses of a list, as fields.
fn put_fields(list: &[u8], out: &mut [u8], from: usize)
    requires { from + length (address_fields (entries list.now)) ≤ length out.old }
    ensures { out.new ≡ sets out.old from (address_fields (entries list.now)) }
{
    let mut p = from;
    for address in wire::entries(list) {
        put_field(address, out, p);
        p += field_len(address);
    }
}

// A message: the type, then the addresses of a list.
fn put_message(number: u64, list: &[u8], out: &mut [u8], at: usize)
    requires { at + (1 + length (encoded number) + length (address_fields (entries list.now))) ≤ length out.old }
    ensures { out.new ≡ sets out.old at (type_field number ++ address_fields (entries list.now)) }
{
    out[at] = 0x08;
    wire::put_varint(number, out, at + 1);
    let p = at + 1 + wire::varint_len(number);
    put_fields(list, out, p);
}

// Writes a message of this type with the addresses of a list.
pub fn encode(kind: Kind, list: &[u8], out: &mut [u8]) -> Result<usize, Refusal>
    ensures answer { result ≡ encode_of kind list.now (length out.old) }
    ensures stored { out.new ≡ encode_into kind list.now out.old }
{
    let size = message_size(kind, list)?;
    if out.len() < size {
        return Err(Refusal::OutputTooShort);
    }
    let number = type_number(kind);
    put_message(number, list, out, 0);
    Ok(size)
}

// Writes the message behind its length, as it goes out on a stream.
pub fn encode_frame(kind: Kind, list: &[u8], out: &mut [u8]) -> Result<usize, Refusal>
    ensures answer { result ≡ frame_encode_of kind list.now (length out.old) }
    ensures stored { out.new ≡ frame_encode_into kind list.now out.old }
{
    let size = message_size(kind, list)?;
    let head = wire::varint_len(size as u64);
    if out.len() < head + size {
        return Err(Refusal::OutputTooShort);
    }
    wire::put_varint(size as u64, out, 0);
    let number = type_number(kind);
    put_message(number, list, out, head);
    Ok(head + size)
}
