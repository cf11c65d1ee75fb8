// Laws of the wire: what is written is read, and what is read is what section 2, 4 and 5 of docs/RULES.md say of the bytes.
#![tactic(auto)]

ghost use Rattle.std.specs.Prelude.{◌≡◌, false, List, [], ◌∷◌, ◌++◌, ℕ, ◌+◌, ◌<◌, ◌≤◌, ◌^◌, length, get_or, take, None, Some};
ghost use Rattle.wire.specs.Varint.{varint_of, encoded};
ghost use Rattle.wire_laws.specs.Bytes.{IsVarint, sum};
ghost use Rattle.wire.specs.Frame.{max_message_size, frame_of, framed};
ghost use Rattle.wire.specs.declared.Frame.TheVariants as Frame;
ghost use Rattle.wire.specs.Lists.{entries, broken, listed};

// A varint in front is read as the number that its bytes say; where none stands in front, what is read is malformed.
pub fn varint_by_the_rule()
    ensures read { (bs rest : List ℕ) → IsVarint bs → varint_of (bs ++ rest) ≡ Some (sum 1 bs, length bs) }
    ensures malformed { (s : List ℕ) → ((bs rest : List ℕ) → IsVarint bs → s ≡ bs ++ rest → ⊥) → varint_of s ≡ None }
{}

// What put_varint stores is read again, whatever follows.
pub fn varint_read_back()
    ensures { (v : ℕ) (rest : List ℕ) → v < 2 ^ 64 → varint_of (encoded v ++ rest) ≡ Some (v, length (encoded v)) }
{}

// A frame that is whole stays whole, whatever stands behind it.
pub fn frame_stays_whole()
    ensures { (s rest : List ℕ) (start len : ℕ) → frame_of s ≡ Frame.Whole start len → frame_of (s ++ rest) ≡ Frame.Whole start len }
{}

// A frame of 4,096 bytes is whole once they are there; one of 4,097 is broken at its second length byte.
pub fn longest_frame()
    ensures whole { (m : List ℕ) → max_message_size ≤ length m → frame_of (0x80 ∷ 0x20 ∷ m) ≡ Frame.Whole 2 max_message_size }
    ensures broken { (rest : List ℕ) → frame_of (0x81 ∷ 0x20 ∷ rest) ≡ Frame.Broken }
{}

// A second length byte of 0 behind one of 128 or more is broken, whatever follows, and however many bytes from the second on are there.
pub fn second_byte_zero_is_broken()
    ensures { (b count : ℕ) (rest : List ℕ) → 128 ≤ b → 2 ≤ count → frame_of (take count (b ∷ 0 ∷ rest)) ≡ Frame.Broken }
{}

// A message behind its length is a whole frame, whatever follows.
pub fn framed_message_is_whole()
    ensures { (m rest : List ℕ) → length m ≤ max_message_size → frame_of (framed m ++ rest) ≡ Frame.Whole (length (encoded (length m))) (length m) }
{}

// The addresses of a list that is not broken make up that list again; and addresses of up to 65,535 bytes are those of their list, which is
// not broken.
pub fn list_read_back()
    ensures written { (xs : List (List ℕ)) → ((i : ℕ) → length (get_or xs i []) < 65536) → (entries (listed xs) ≡ xs) × (broken (listed xs) ≡ false) }
    ensures read { (s : List ℕ) → ((i : ℕ) → get_or s i 0 < 256) → broken s ≡ false → listed (entries s) ≡ s }
{}
