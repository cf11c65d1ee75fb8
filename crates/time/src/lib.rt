// Times are milliseconds of 64 bits; sums and differences stop at the ends of that range.
#![tactic(auto)]

ghost use Rattle.std.specs.Prelude.{◌≡◌, ◌-◌};
ghost use Rattle.time.specs.Time.{plus};

// The largest time.
pub const LAST: u64 = u64::MAX;

#[tactic(auto, unfolding(crate::specs::Time::plus))]
pub fn saturating_add(a: u64, b: u64) -> u64
    ensures { result ≡ plus a b }
{
    a.saturating_add(b)
}

pub fn saturating_sub(a: u64, b: u64) -> u64
    ensures { result ≡ a - b }
{
    a.saturating_sub(b)
}
