// The instants of a window at which the chosen addresses are sent to (inbound.rs, BlastSchedule), counted without a loop.
#![tactic(auto)]

ghost use Rattle.std.specs.Prelude.{◌≡◌, ℕ, ◌+◌, ◌*◌, ◌≤◌, ◌<◌, min, max, List, length, get_or, drop};
ghost use Rattle.time.specs.Time.{last};
ghost use Rattle.schedule.specs.Instants.{half_of, start_of, instants, count_to};
ghost use Rattle.schedule.specs.Schedule.{schedule_of, due_of, window_of, opened_of, next_of};
ghost use Rattle.schedule.specs.Readings.{none, largest_of, counted, sum_all, Once, FirstWithReply};

// A state with methods of its own, which an `Option` of its fields could not have: an enum.
#[derive(Clone, Copy)]
pub enum BlastSchedule {
    // The next instant, and the window's end.
    Next { at: u64, until: u64 },
    // No instant is left.
    Over,
}

// The schedule moved on, and the count of the instants passed.
#[derive(Clone, Copy)]
pub struct NewlyDue {
    pub schedule: BlastSchedule,
    pub times: u64,
}

// Half of a round trip, rounded up.
#[tactic(auto, unfolding(crate::specs::Instants::half_of))]
fn half(rtt: u64) -> u64
    ensures { result ≡ half_of rtt }
{
    rtt.div_ceil(2)
}

// When the window opens whose reply came at now.
#[tactic(auto, unfolding(crate::specs::Instants::start_of))]
pub fn blast_start(now: u64, rtt: u64) -> u64
    ensures { result ≡ start_of now rtt }
{
    time::saturating_add(now, half(rtt))
}

fn step(interval: u64) -> u64
    ensures { result ≡ max interval 1 }
{
    interval.max(1)
}

// The count of the instants at, at + interval, .. up to until that are no later than now.
fn count_due(at: u64, until: u64, interval: u64, now: u64) -> u64
    ensures { result ≡ min (count_to now (instants at interval until)) last }
{
    let limit = until.min(now);
    if limit < at {
        return 0;
    }
    ((limit - at) / step(interval)).saturating_add(1)
}

// The schedule after the first `times` of the instants at, at + interval, .. up to until.
fn move_on(at: u64, until: u64, interval: u64, times: u64) -> BlastSchedule
    ensures { result ≡ schedule_of until (drop times (instants at interval until)) }
{
    let each = step(interval);
    if until < at || (until - at) / each < times {
        return BlastSchedule::Over;
    }
    BlastSchedule::Next {
        at: at + times * each,
        until,
    }
}

impl BlastSchedule {
    #[tactic(auto, unfolding(crate::specs::Schedule::window_of))]
    fn new(start: u64, until: u64) -> Self
        ensures { result ≡ window_of start until }
    {
        if start <= until {
            BlastSchedule::Next { at: start, until }
        } else {
            BlastSchedule::Over
        }
    }

    // The schedule of a window that a reply with this round trip opens.
    #[tactic(auto, unfolding(crate::specs::Schedule::opened_of))]
    pub fn open(start: u64, until: u64, interval: u64, rtt: u64) -> NewlyDue
        ensures { result ≡ opened_of start until interval rtt }
    {
        let schedule = BlastSchedule::new(start, until);
        match rtt {
            0 => schedule.newly_due(interval, start),
            _ => NewlyDue { schedule, times: 0 },
        }
    }

    #[tactic(auto, unfolding(crate::specs::Schedule::due_of, crate::specs::Schedule::times_of, crate::specs::Schedule::without, crate::specs::Schedule::ahead, crate::specs::Instants::count_to, prelude::specs::Lists::count))]
    pub fn newly_due(self, interval: u64, now: u64) -> NewlyDue
        ensures { result ≡ due_of self interval now }
    {
        match self {
            BlastSchedule::Next { at, until } => {
                let times = count_due(at, until, interval, now);
                NewlyDue {
                    schedule: move_on(at, until, interval, times),
                    times,
                }
            }
            BlastSchedule::Over => NewlyDue {
                schedule: BlastSchedule::Over,
                times: 0,
            },
        }
    }

    // When to look at the schedule of a window with this end again.
    #[tactic(auto, unfolding(crate::specs::Schedule::next_of))]
    pub fn next_deadline(self, end: u64) -> u64
        ensures { result ≡ next_of self end }
    {
        match self {
            BlastSchedule::Next { at, until } => at.min(until.min(end)),
            BlastSchedule::Over => end,
        }
    }
}

// The list of instants has start + k·i for each k for which that is no later than the end, in the order of k, and nothing else.
pub fn every_instant()
    ensures listed { (start i end k : ℕ) → start + k * max i 1 ≤ end → k < length (instants start i end) }
    ensures no_other { (start i end k : ℕ) → k < length (instants start i end) → (get_or (instants start i end) k 0 ≡ start + k * max i 1) × (start + k * max i 1 ≤ end) }
{}

// Over any readings in any order, the counts add up to the instants no later than the end and the largest reading, with the first at
// round trip 0 in any case.
pub fn counts_add_up()
    ensures { (start until i rtt : ℕ) (ats : List ℕ) → counted i start until rtt (largest_of none ats) ≤ last → sum_all start until i rtt ats ≡ counted i start until rtt (largest_of none ats) }
{}

// Only a window from 0 to the last time, at interval 0 or 1, has more instants than 64 bits count, and only by a reading at its end.
pub fn count_fits()
    ensures { (start until i at : ℕ) → until ≤ last → last < count_to at (instants start i until) → (start ≡ 0) × (until ≡ last) × (i ≤ 1) × (last ≤ at) }
{}

// At round trip 0 the first instant is counted with the reply, and never again.
pub fn first_with_reply()
    ensures { (start until i : ℕ) → start ≤ until → FirstWithReply start until i }
{}

// No instant is counted twice.
pub fn no_instant_twice()
    ensures { (start until i rtt : ℕ) (ats : List ℕ) → Once start until i rtt ats }
{}
