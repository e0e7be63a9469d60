//! Points that wait to be written: within an upload they are put one behind another, and a statement that puts several
//! takes less than one for each.

ghost use Rattle.std.specs.Prelude.{◌≡◌, ◌<◌, ◌≤◌, OnErr, OnOk, IsTrue, None, Some, [], false, length, true};
ghost use Rattle.sqlite.specs.Held.{state};
ghost use Rattle.sqlite.specs.State.{HasCleanDisk};
ghost use Rattle.pw_shelf.specs.Changes.{with_point};
ghost use Rattle.pw_store.specs.Kept.{written_of};
ghost use Rattle.pw_store.specs.OpenStore.{held_in};
ghost use Rattle.pw_store.specs.Waiting.{Points, points_over, with_waiting};
ghost use Rattle.pw_store.specs.inner.AllElse.{KeepsElse};
ghost use Rattle.pw_store.specs.inner.Seconds.{IsFarther, IsNearer, IsNearest, NoneWithin};

use crate::changes::Change;
use crate::fault::device_fault;
use crate::points::Side;
use crate::shelf::SqlShelf;
use pw_obis::{Register, WattHours};
use pw_shelf::ShelfFault;
use pw_tariff::MeterId;
use pw_time::{FIRST_SECOND, Instant};
use sqlite::Alter;

// As many points as one statement puts.
pub(crate) const AT_ONCE: usize = 4;

// A point that waits.
#[derive(Clone, Copy)]
pub(crate) struct WaitingPoint {
    pub(crate) meter: MeterId,
    pub(crate) register: Register,
    pub(crate) instant: Instant,
    pub(crate) wh: WattHours,
}

// What stands where no point waits.
impl Default for WaitingPoint {
    fn default() -> WaitingPoint {
        WaitingPoint {
            meter: MeterId(0),
            register: Register::I0,
            instant: Instant::of(FIRST_SECOND).unwrap(),
            wh: WattHours::of(0).unwrap(),
        }
    }
}

impl WaitingPoint {
    fn is_of(&self, meter: MeterId, register: Register) -> bool
        ensures here { IsTrue result → (self.now.meter ≡ meter) × (self.now.register ≡ register) }
        ensures elsewhere { result ≡ false
            → (self.now.meter ≡ meter) × (self.now.register ≡ register) → ⊥ }
    {
        self.meter == meter && self.register == register
    }

    fn is_within(&self, meter: MeterId, register: Register, from: Instant, to: Instant) -> bool
        ensures { result ≡ false → (self.now.meter ≡ meter) × (self.now.register ≡ register)
            → (from ≤ self.now.instant) × (self.now.instant ≤ to) → ⊥ }
    {
        self.is_of(meter, register) && from <= self.instant && self.instant <= to
    }

    // Whether it is of a register and nearer than what was found on a side.
    fn is_nearer(
        &self,
        meter: MeterId,
        register: Register,
        side: &Side,
        found: &Option<(Instant, WattHours)>,
    ) -> bool
        ensures here { IsTrue result → (self.now.meter ≡ meter) × (self.now.register ≡ register) }
        ensures nearer { IsTrue result → IsNearer side.now self.now.instant found.now }
        ensures farther { result ≡ false → (self.now.meter ≡ meter) × (self.now.register ≡ register)
            → IsFarther side.now self.now.instant found.now }
    {
        self.is_of(meter, register) && is_nearer(side, self.instant, found)
    }
}

// Whether an instant is strictly on a side, and no farther than what was found.
fn is_nearer(side: &Side, instant: Instant, found: &Option<(Instant, WattHours)>) -> bool
    ensures nearer { IsTrue result → IsNearer side.now instant found.now }
    ensures farther { result ≡ false → IsFarther side.now instant found.now }
{
    match side {
        Side::Before(end) => {
            instant < *end
                && match found {
                    Some(last) => last.0 <= instant,
                    None => true,
                }
        }
        Side::Behind(begin) => {
            *begin < instant
                && match found {
                    Some(first) => instant <= first.0,
                    None => true,
                }
        }
    }
}

// The nearest point strictly on a side, where one is nearest of those written, and these wait.
pub(crate) fn nearest_of(
    waiting: &[WaitingPoint],
    meter: MeterId,
    register: Register,
    side: &Side,
    written: Option<(Instant, WattHours)>,
) -> Option<(Instant, WattHours)>
    ensures { (points : Points) → IsNearest side.now (points meter.0 register) written
        → IsNearest side.now (points_over waiting.now points meter.0 register) result }
{
    let mut nearest = written;
    for point in waiting {
        if point.is_nearer(meter, register, side, &nearest) {
            nearest = Some((point.instant, point.wh));
        }
    }
    nearest
}

// Whether one of these is of a register from one instant to another, both included.
fn any_within(
    waiting: &[WaitingPoint],
    meter: MeterId,
    register: Register,
    from: Instant,
    to: Instant,
) -> bool
    ensures { result ≡ false → NoneWithin waiting.now meter.0 register from to }
{
    for point in waiting {
        if point.is_within(meter, register, from, to) {
            return true;
        }
    }
    false
}

impl<S: Alter> SqlShelf<S> {
    // Puts a point: it waits, behind those that wait already.
    pub(crate) fn put_point(&mut self, point: WaitingPoint) -> Result<(), ShelfFault>
        requires { self.old.begun ≡ true }
        ensures content { HasCleanDisk (state S.Store self.new.conn)
            → OnOk result (held_in S.Store self.new
            ≡ with_point (held_in S.Store self.old) point.meter.0 point.register point.instant
            (Some point.wh)) }
        ensures keeps_else { KeepsElse S.Store result self.old self.new }
    {
        if self.conn.is_autocommit() {
            return Err(device_fault(&mut self.failures));
        }
        self.make_room()?;
        self.waiting.push(point);
        Ok(())
    }

    // Takes a point away.
    pub(crate) fn take_point(
        &mut self,
        meter: MeterId,
        register: Register,
        instant: Instant,
    ) -> Result<(), ShelfFault>
        requires { self.old.begun ≡ true }
        ensures content { HasCleanDisk (state S.Store self.new.conn)
            → OnOk result (held_in S.Store self.new
            ≡ with_point (held_in S.Store self.old) meter.0 register instant None) }
        ensures keeps_else { KeepsElse S.Store result self.old self.new }
    {
        self.write_waiting()?;
        self.change(Change::TakePoint {
            meter,
            register,
            instant,
        })?;
        Ok(())
    }

    // Writes the points that wait, if no more can.
    fn make_room(&mut self) -> Result<(), ShelfFault>
        ensures content { HasCleanDisk (state S.Store self.new.conn)
            → OnOk result (held_in S.Store self.new ≡ held_in S.Store self.old) }
        ensures room { OnOk result (length self.new.waiting.items < AT_ONCE) }
        ensures keeps_else { KeepsElse S.Store result self.old self.new }
    {
        if self.waiting.is_full() {
            return self.write_waiting();
        }
        Ok(())
    }

    // Writes the points that wait.
    pub(crate) fn write_waiting(&mut self) -> Result<(), ShelfFault>
        ensures content { HasCleanDisk (state S.Store self.new.conn)
            → OnOk result (held_in S.Store self.new ≡ held_in S.Store self.old) }
        ensures none { OnOk result (self.new.waiting.items ≡ []) }
        ensures begun { OnErr result (self.old.begun ≡ true) }
        ensures keeps_else { KeepsElse S.Store result self.old self.new }
    {
        if self.waiting.is_empty() {
            return Ok(());
        }
        let waiting = self.waiting.take();
        self.write_points(waiting.as_slice())
    }

    // Writes them, if one of them is of a register from one instant to another, both included.
    pub(crate) fn write_within(
        &mut self,
        meter: MeterId,
        register: Register,
        from: Instant,
        to: Instant,
    ) -> Result<(), ShelfFault>
        ensures content { HasCleanDisk (state S.Store self.new.conn)
            → OnOk result (held_in S.Store self.new ≡ held_in S.Store self.old) }
        ensures none { OnOk result
            (NoneWithin self.new.waiting.items meter.0 register from to) }
        ensures begun { OnErr result (self.old.begun ≡ true) }
        ensures keeps_else { KeepsElse S.Store result self.old self.new }
    {
        if any_within(self.waiting.as_slice(), meter, register, from, to) {
            return self.write_waiting();
        }
        Ok(())
    }

    // Writes points, by one statement where they are as many as it puts and no row has one of their keys, and else one
    // behind another.
    fn write_points(&mut self, points: &[WaitingPoint]) -> Result<(), ShelfFault>
        requires { self.old.begun ≡ true }
        ensures content { HasCleanDisk (state S.Store self.new.conn)
            → OnOk result (written_of (state S.Store self.new.conn)
            (state S.Store self.new.base.value)
            ≡ with_waiting points.now (written_of (state S.Store self.old.conn)
            (state S.Store self.old.base.value))) }
        ensures waits { self.new.waiting ≡ self.old.waiting }
        ensures keeps_else { KeepsElse S.Store result self.old self.new }
    {
        let [first, second, third, fourth] = points else {
            return self.write_each(points);
        };
        let four = Change::PutFour {
            first: *first,
            second: *second,
            third: *third,
            fourth: *fourth,
        };
        if self.change(four)? > 0 {
            return Ok(());
        }
        self.write_each(points)
    }

    // Writes points one behind another.
    fn write_each(&mut self, points: &[WaitingPoint]) -> Result<(), ShelfFault>
        requires { self.old.begun ≡ true }
        ensures content { HasCleanDisk (state S.Store self.new.conn)
            → OnOk result (written_of (state S.Store self.new.conn)
            (state S.Store self.new.base.value)
            ≡ with_waiting points.now (written_of (state S.Store self.old.conn)
            (state S.Store self.old.base.value))) }
        ensures waits { self.new.waiting ≡ self.old.waiting }
        ensures keeps_else { KeepsElse S.Store result self.old self.new }
    {
        for point in points {
            self.write_point(*point)?;
        }
        Ok(())
    }
}
