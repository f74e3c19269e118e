// Clock readings, lifetimes, and the time that a policy has left.
#![tactic(auto)]

ghost use Rattle.std.specs.Prelude.{◌≡◌, ◌+◌, ◌≤◌, pos, ◌-ℤ◌};
ghost use Rattle.clock.specs.Clock.{longest, lifetime_of, latest, is_reading, clock_refusal, is_live, time_left_answer, time_left_number};

pub const LATEST_READING: u64 = 253402300799;

pub const LONGEST_LIFETIME: u64 = 31557600;

// A clock reading: seconds since 1970.
#[derive(Clone, Copy, PartialEq, Eq, PartialOrd, Ord)]
pub struct Reading(pub u64);

// A lifetime: for how many seconds after its fetch a policy lasts.
#[derive(Clone, Copy, PartialEq, Eq, PartialOrd, Ord)]
pub struct Lifetime(pub u64);

// The refusal of a clock above the latest reading.
#[derive(Clone, Copy, PartialEq, Eq)]
pub enum ClockError {
    BadClock,
}

// Whether a clock is at most the latest reading.
#[tactic(auto, unfolding(crate::specs::Clock::is_reading))]
pub fn is_reading(reading: Reading) -> bool
    ensures { result ≡ is_reading reading.0 }
{
    reading.0 <= LATEST_READING
}

// The lifetime that a max_age gives: at most the longest.
#[tactic(auto, unfolding(crate::specs::Clock::capped_age))]
pub fn capped(max_age: u64) -> Lifetime
    ensures { result ≡ lifetime_of max_age }
{
    Lifetime(max_age.min(LONGEST_LIFETIME))
}

// The exact difference. The bounds keep each number, and the sum, in the range of an i64.
fn difference(fetched: Reading, lifetime: Lifetime, present: Reading) -> i64
    requires { (fetched.0 ≤ latest) × (lifetime.0 ≤ longest) × (present.0 ≤ latest) }
    ensures { result ≡ pos (fetched.0 + lifetime.0) -ℤ pos present.0 }
{
    (fetched.0 + lifetime.0) as i64 - present.0 as i64
}

// The seconds that a policy has left at a present clock, negative once it is stale by a second. A lifetime above the longest counts as the longest.
pub fn time_left(fetched: Reading, lifetime: Lifetime, present: Reading) -> Result<i64, ClockError>
    ensures { (result ≡ time_left_answer fetched.0 lifetime.0 present.0) × (time_left_number result ≡ clock_refusal fetched.0 present.0) }
{
    if !is_reading(fetched) || !is_reading(present) {
        return Err(ClockError::BadClock);
    }
    Ok(difference(fetched, capped(lifetime.0), present))
}

// Whether a policy is live at a present clock: it has time left. With a bad clock it is not.
pub fn is_live(fetched: Reading, lifetime: Lifetime, present: Reading) -> bool
    ensures { result ≡ is_live fetched.0 lifetime.0 present.0 }
{
    match time_left(fetched, lifetime, present) {
        Ok(left) => 0 < left,
        Err(_) => false,
    }
}
