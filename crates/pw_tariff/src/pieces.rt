//! Runs of seconds of a span, one behind another, each of one owner, one period and one band.

ghost use Rattle.std.specs.Prelude.{◌<◌};
ghost use Rattle.pw_time.specs.Instants.{IsInstant};
ghost use Rattle.pw_tariff.specs.Office.{IsSound};
ghost use Rattle.pw_tariff.specs.inner.Pieces.{IsClassAt, IsPart, IsRun};

use crate::limits::HOUR;
use crate::{BandId, Office, Owner, Owners, PeriodId};
use pw_time::{Instant, Zone};

// The owner, the period and the band of a second.
#[derive(Clone, Copy, PartialEq, Eq)]
pub(crate) struct Class {
    pub(crate) owner: Owner,
    pub(crate) period: PeriodId,
    pub(crate) band: BandId,
}

// Seconds of one class, one behind another, and the first second behind them.
#[derive(Clone, Copy)]
pub(crate) struct Run {
    pub(crate) class: Class,
    pub(crate) until: u32,
}

// What classes are told by: the office, the zone that its bands are told in, and the owners of a meter.
#[derive(Drop)]
pub(crate) struct ClassBasis<'a> {
    pub(crate) office: &'a Office,
    pub(crate) zone: &'a Zone,
    pub(crate) owners: &'a Owners<'a>,
}

// The owner, the period and the band of a second.
pub(crate) fn class_at(basis: &ClassBasis, second: u32) -> Class
    requires { IsInstant second }
    ensures class { IsClassAt basis.now.office.now basis.now.owners.now second result }
    ensures sound { IsSound basis.now.office.now }
{
    let Some(instant) = Instant::of(second) else {
        unreachable!();
    };
    Class {
        owner: basis.owners.at(second),
        period: basis.office.period(instant),
        band: basis.office.band(instant, basis.zone),
    }
}

// Where the part of a run from a second on ends: at the next hour of UTC, at the next start of an owner, or at the end.
fn part_end(owners: &Owners, second: u32, end: u32) -> u32
    requires { second < end }
    ensures { IsPart owners.now second end result }
{
    let left_of_hour = HOUR - second % HOUR;
    let hour = second + left_of_hour.min(end - second);
    owners.next_start(second, hour)
}

// The run of the seconds of one class that begins at a second: parts of that class, joined.
pub(crate) fn run_at(basis: &ClassBasis, second: u32, end: u32) -> Run
    requires begun { IsInstant second }
    requires ended { IsInstant end }
    requires under_way { second < end }
    ensures { IsRun basis.now.office.now basis.now.owners.now second end result }
{
    let class = class_at(basis, second);
    let mut until = part_end(basis.owners, second, end);
    while until < end {
        let next = class_at(basis, until);
        if next != class {
            return Run { class, until };
        }
        until = part_end(basis.owners, until, end);
    }
    Run { class, until }
}
