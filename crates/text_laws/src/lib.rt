// Laws of text: what is printed is read, and only that (section 12.3 of docs/RULES.md).
#![tactic(auto)]

ghost use Rattle.std.specs.Prelude.{◌≡◌, true, List, ℕ, ◌≤◌, Some};
ghost use Rattle.prelude.specs.Numbers.{max_u64};
ghost use Rattle.text.specs.Decimal.{decimal_of, decimal};
ghost use Rattle.text.specs.Hexadecimal.{is_hexadecimal, bytes_of, hexadecimal, Bytes};

// A number is read from its text, and from no other.
pub fn decimal_round_trip()
    ensures read { (v : ℕ) → v ≤ max_u64 → decimal_of (decimal v) ≡ Some v }
    ensures only { (s : List ℕ) (v : ℕ) → decimal_of s ≡ Some v → s ≡ decimal v }
{}

// Bytes are read from their pairs of digits, and from no other text.
pub fn hexadecimal_round_trip()
    ensures read { (s : List ℕ) → Bytes s → bytes_of (hexadecimal s) ≡ s }
    ensures taken { (s : List ℕ) → Bytes s → is_hexadecimal (hexadecimal s) ≡ true }
    ensures only { (s : List ℕ) → is_hexadecimal s ≡ true → hexadecimal (bytes_of s) ≡ s }
{}
