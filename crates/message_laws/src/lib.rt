// Laws of the message (message.rs): what is written is read, and each answer is that of the tables in sections 2 and 3 of docs/RULES.md.
#![tactic(auto)]

ghost use Rattle.std.specs.Prelude.{◌≡◌, List, ◌++◌, ℕ, ◌+◌, ◌<◌, ◌≤◌, length, take, drop, get_or, Err, Ok};
ghost use Rattle.refusal.specs.declared.Refusal.{Refusal};
ghost use Rattle.wire.specs.Frame.{max_message_size};
ghost use Rattle.message.specs.Message.{content_of, over, with_room, decode_of, decode_into};
ghost use Rattle.message.specs.Encoding.{encode_of, encode_into, frame_encode_of, frame_encode_into};
ghost use Rattle.message.specs.declared.Kind.{Kind};
ghost use Rattle.message_laws.specs.Refused.{address_list, read_number, read_values, read_by, message_size, frame_size, write_values, written_by};

// Reading what was written gives the type and the addresses back, for every type and list that is accepted.
pub fn encoded_reads_back()
    ensures { (k : Kind) (s out back : List ℕ) (n : ℕ) → ((i : ℕ) → get_or s i 0 < 256) → encode_of k s (length out) ≡ Ok n → length s ≤ length back → (decode_of (take n (encode_into k s out)) (length back) ≡ Ok (k, length s)) × (decode_into (take n (encode_into k s out)) back ≡ over s back) }
{}

// A refusal changes no byte of the output.
pub fn refused_changes_nothing()
    ensures read { (m out : List ℕ) (why : Refusal) → decode_of m (length out) ≡ Err why → decode_into m out ≡ out }
    ensures written { (k : Kind) (s out : List ℕ) (why : Refusal) → encode_of k s (length out) ≡ Err why → encode_into k s out ≡ out }
    ensures framed { (k : Kind) (s out : List ℕ) (why : Refusal) → frame_encode_of k s (length out) ≡ Err why → frame_encode_into k s out ≡ out }
{}

// A room as long as the message is always enough for its list of addresses.
pub fn room_is_enough()
    ensures { (m : List ℕ) (room : ℕ) → length m ≤ max_message_size → length m ≤ room → decode_of m room ≡ with_room (content_of m) }
{}

// What is read and written is answered by the number of the first line of the rule's table that fits; where none fits, by 0, the type that
// was met last and the size.
pub fn refused_by_the_rule()
    ensures read { (m : List ℕ) (room : ℕ) → read_values (decode_of m room) ≡ read_by m room }
    ensures written { (k : Kind) (s : List ℕ) (room : ℕ) → write_values (encode_of k s room) ≡ written_by s (message_size k s) (message_size k s) room }
    ensures framed { (k : Kind) (s : List ℕ) (room : ℕ) → write_values (frame_encode_of k s room) ≡ written_by s (message_size k s) (frame_size k s) room }
{}

// Where none fits, the addresses of the fields stand in the output, in order, as a list from its first byte on.
pub fn addresses_by_the_rule()
    ensures { (m out : List ℕ) → read_number m (length out) ≡ 0 → decode_into m out ≡ address_list m ++ drop (length (address_list m)) out }
{}
