//! The energy of a register, computed one second at a time, straight from the definitions.
//!
//! It is slow, and meant for short spans: bodies that work by longer pieces are compared with it.

ghost use Rattle.std.specs.Prelude.{◌≡◌, ℕ, ◌+◌, ◌-◌, ◌<◌, ◌≤◌, All, Bool};
ghost use Rattle.pw_flow.specs.Energy.{cell, register_energy};
ghost use Rattle.pw_flow.specs.Flow.{level, pair_flow};
ghost use Rattle.pw_flow.specs.Plain.{AnswersBy, value_at};
ghost use Rattle.pw_flow.specs.Time.{AreInTime};

/// A reading of a register: its second, counted from 1970-01-01T00:00:00Z, and its value in watt-hours.
#[derive(Clone, Copy, Debug, PartialEq, Eq)]
pub struct Point {
    pub at: u32,
    pub watt_hours: u64,
}

/// The level at a second of the span between two readings that don't fall, in whole watt-hours, rounded down.
///
/// At the first reading it is that reading's value, at the second one the other's.
#[tactic(auto, unfolding(crate::specs::Flow::level))]
pub fn level_at(from: Point, to: Point, second: u32) -> u64
    requires earlier { from.at < to.at }
    requires rising { from.watt_hours ≤ to.watt_hours }
    requires begun { from.at ≤ second }
    requires not_over { second ≤ to.at }
    ensures level { result ≡ level from.at from.watt_hours to.at to.watt_hours second }
    ensures low { from.watt_hours ≤ result }
    ensures high { result ≤ to.watt_hours }
{
    let rise = u128::from(to.watt_hours - from.watt_hours);
    let passed = u128::from(second - from.at);
    let whole = u128::from(to.at - from.at);
    from.watt_hours + (rise * passed / whole) as u64
}

// What a second of the span carries, in watt-hours: nothing where the readings fall.
fn flow_at(from: Point, to: Point, second: u32) -> u64
    requires begun { from.at ≤ second }
    requires under_way { second < to.at }
    ensures { result ≡ pair_flow (from.at, from.watt_hours) (to.at, to.watt_hours) second }
{
    if to.watt_hours < from.watt_hours {
        return 0;
    }
    level_at(from, to, second + 1) - level_at(from, to, second)
}

// What a pair gives to the seconds that are kept, in watt-hours.
fn pair_energy<F: Fn(u32) -> bool>(from: Point, to: Point, keeps: &F) -> u64
    requires { F.IsAlwaysCallable keeps.now }
    ensures cell { (asked : ℕ → Bool) → AnswersBy (F.post keeps.now) asked →
        result ≡ cell asked (from.at, from.watt_hours) (to.at, to.watt_hours) }
    ensures at_most_rise { result ≤ to.watt_hours - from.watt_hours }
{
    let mut energy = 0;
    for second in from.at..to.at {
        if keeps(second) {
            energy += flow_at(from, to, second);
        }
    }
    energy
}

/// The energy of a register over the seconds that a predicate keeps, in watt-hours.
///
/// The points are the counting readings of the register, each behind the one before it. A second between neighbours
/// that don't fall carries what the level rises by from it to the next second, and any other second carries nothing.
/// Nothing is said of a predicate that answers by more than the second.
pub fn energy<F: Fn(u32) -> bool>(points: &[Point], keeps: F) -> u128
    requires rising { AreInTime (λ p. p.at) points.now }
    requires callable { F.IsAlwaysCallable keeps }
    ensures { (asked : ℕ → Bool) (end : ℕ) → AnswersBy (F.post keeps) asked
        → All (λ p. p.at < end) points.now →
        result ≡ register_energy asked (value_at points.now) end }
{
    let mut total = 0;
    for pair in points.windows(2) {
        total += u128::from(pair_energy(pair[0], pair[1], &keeps));
    }
    total
}
