// The time limits of an upgrade (budget.rs): its deadline, its rounds and the running exchange.
#![tactic(auto)]

ghost use Rattle.std.specs.Prelude.{◌≡◌, ℕ, ◌-◌, ◌≤◌, List, [], ◌∷◌, ltb, Some};
ghost use Rattle.budget.specs.Budget.{max_rounds, armed, may_begin, begun, with_exchange, ended, window_end, upgrade_due, due_at, values_of, next_deadline};
ghost use Rattle.budget.specs.Due.{Due};

// The limit that ran out, and how long it was.
#[derive(Clone, Copy)]
pub enum UpgradeStop {
    ExchangeTimeout { round: u32, budget_ms: u64 },
    UpgradeTimeout { budget_ms: u64 },
}

#[derive(Clone, Copy)]
pub struct UpgradeBudget {
    // When the circuit came up.
    pub armed: u64,
    // The whole upgrade ends then.
    pub deadline: u64,
    // The exchange of a round: when it began and when it must be over.
    pub running: Option<(u64, u64)>,
    // Rounds begun.
    pub rounds: u32,
    // How long an exchange may last, and a window.
    pub exchange: u64,
    pub punch: u64,
}

impl UpgradeBudget {
    pub const MAX_DCUTR_ROUNDS: u32 = 3;

    #[tactic(auto, unfolding(crate::specs::Budget::armed))]
    pub fn arm(now: u64, upgrade: u64, exchange: u64, punch: u64) -> Self
        ensures { result ≡ armed now upgrade exchange punch }
    {
        UpgradeBudget {
            armed: now,
            deadline: time::saturating_add(now, upgrade),
            running: None,
            rounds: 0,
            exchange,
            punch,
        }
    }

    pub fn deadline(self) -> u64
        ensures { result ≡ self.deadline }
    {
        self.deadline
    }

    pub fn rounds(self) -> u32
        ensures { result ≡ self.rounds }
    {
        self.rounds
    }

    pub fn rounds_left(self) -> bool
        ensures { result ≡ ltb self.rounds max_rounds }
    {
        self.rounds < UpgradeBudget::MAX_DCUTR_ROUNDS
    }

    // Whether begin_round begins a round.
    #[tactic(auto, unfolding(crate::specs::Budget::may_begin))]
    pub fn may_begin(self, now: u64) -> bool
        ensures { result ≡ may_begin self now }
    {
        self.rounds_left() && now < self.deadline
    }

    // A round began where the answer has one round more; else the answer is the same budget.
    #[tactic(auto, unfolding(crate::specs::Budget::begun, crate::specs::Budget::one_more, crate::specs::Budget::may_begin))]
    pub fn begin_round(mut self, now: u64) -> Self
        ensures { result ≡ begun self now }
    {
        if self.may_begin(now) {
            let end = time::saturating_add(now, self.exchange).min(self.deadline);
            self.rounds += 1;
            self.running = Some((now, end));
        }
        self
    }

    #[tactic(auto, unfolding(crate::specs::Budget::ended, crate::specs::Budget::with_exchange))]
    pub fn end_exchange(mut self) -> Self
        ensures { result ≡ ended self }
    {
        self.running = None;
        self
    }

    // The end of a window that opens at start.
    #[tactic(auto, unfolding(crate::specs::Budget::window_end))]
    pub fn punch_window_end(self, start: u64) -> u64
        ensures { result ≡ window_end self start }
    {
        time::saturating_add(start, self.punch).min(self.deadline)
    }

    // The limit that ran out by now. An exchange that the deadline cut short never had its own limit, so the upgrade's is named.
    #[tactic(auto, unfolding(crate::specs::Budget::due_at, crate::specs::Budget::upgrade_due))]
    pub fn due(self, now: u64) -> Option<UpgradeStop>
        ensures { result ≡ due_at self now }
    {
        match self.running {
            Some((started, end)) if end <= now && end < self.deadline => {
                Some(UpgradeStop::ExchangeTimeout {
                    round: self.rounds,
                    budget_ms: time::saturating_sub(end, started),
                })
            }
            _ => self.upgrade_due(now),
        }
    }

    #[tactic(auto, unfolding(crate::specs::Budget::upgrade_due))]
    fn upgrade_due(self, now: u64) -> Option<UpgradeStop>
        ensures { result ≡ upgrade_due self now }
    {
        (self.deadline <= now).then_some(UpgradeStop::UpgradeTimeout {
            budget_ms: time::saturating_sub(self.deadline, self.armed),
        })
    }

    // The earliest limit that runs, for the driver's timer.
    #[tactic(auto, unfolding(crate::specs::Budget::next_deadline))]
    pub fn next_deadline(self) -> u64
        ensures { result ≡ next_deadline self }
    {
        match self.running {
            Some((_, end)) => end.min(self.deadline),
            None => self.deadline,
        }
    }
}

// Whether a round began is told by the rounds alone.
pub fn round_told()
    ensures { (b : UpgradeBudget) (at : ℕ) → ltb b.rounds (begun b at).rounds ≡ may_begin b at }
{}

// An exchange that lasts to the deadline or past it gives the upgrade's timeout.
pub fn deadline_first()
    ensures { (b : UpgradeBudget) (at started end : ℕ) → b.running ≡ Some (started, end) → b.deadline ≤ end → b.deadline ≤ at → values_of (due_at b at) ≡ 2 ∷ (b.deadline - b.armed) ∷ [] }
{}

// What is due is what section 8 of the rule says, in numbers: each answer just in its case.
pub fn due_by_the_rule()
    ensures { (b : UpgradeBudget) (at : ℕ) (v : List ℕ) → (values_of (due_at b at) ≡ v → Due b at v) × (Due b at v → values_of (due_at b at) ≡ v) }
{}
