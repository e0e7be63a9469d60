//! The difference between two readings, cut into pieces, and shared out over owners, periods and bands.

ghost use Rattle.std.specs.Prelude.{◌≡◌, ◌-◌, ◌<◌, ◌≤◌, IfOk};
ghost use Rattle.pw_obis.specs.declared.energy.TheConstants.{LARGEST_WATT_HOURS};
ghost use Rattle.pw_tariff.specs.Pieces.{IsPieceOf, ListsPieces, level_of};
ghost use Rattle.pw_tariff.specs.Shares.{AreShares};

use crate::cells::add;
use crate::pieces::{Class, ClassBasis, run_at};
use crate::{BandId, Cell, Office, Owner, Owners, PeriodId};
use pw_flow::plain::{Point, level_at};
use pw_obis::WattHours;
use pw_time::{Instant, Zone};
use std::alloc::{AllocError, Global};

/// The difference of a register between two readings: the value `low` at `from`, and `high` at `to`.
#[derive(Clone, Copy, Debug, PartialEq, Eq)]
pub struct Span {
    pub from: Instant,
    pub to: Instant,
    pub low: WattHours,
    pub high: WattHours,
}

/// A piece of a difference: seconds one behind another of one owner, one period and one band, as
/// many as there are.
#[derive(Clone, Copy, Debug, PartialEq, Eq)]
pub struct Piece {
    /// Its first second.
    pub begin: Instant,
    /// The first second behind it.
    pub until: Instant,
    pub owner: Owner,
    pub period: PeriodId,
    pub band: BandId,
    /// What flows in it, in Wh: what the level of the whole span rises by between its ends.
    pub wh: u64,
}

impl Span {
    // The level at an instant of it, in whole Wh, rounded down.
    fn level(&self, instant: Instant) -> u64
        requires earlier { self.now.from < self.now.to }
        requires rising { self.now.low ≤ self.now.high }
        requires begun { self.now.from ≤ instant }
        requires not_over { instant ≤ self.now.to }
        ensures level { result ≡ level_of self.now instant }
        ensures bound { result ≤ LARGEST_WATT_HOURS }
    {
        let from = Point {
            at: self.from.seconds(),
            watt_hours: self.low.get(),
        };
        let to = Point {
            at: self.to.seconds(),
            watt_hours: self.high.get(),
        };
        level_at(from, to, instant.seconds())
    }
}

// The piece of a span that begins at an instant.
#[tactic(auto, using(crate::proofs::Gathered::rising))]
fn piece_at(basis: &ClassBasis, span: &Span, begin: Instant) -> Piece
    requires rising { span.now.low ≤ span.now.high }
    requires begun { span.now.from ≤ begin }
    requires under_way { begin < span.now.to }
    ensures begin { result.begin ≡ begin }
    ensures piece { IsPieceOf basis.now.office.now basis.now.owners.now span.now result }
    ensures bound { level_of span.now result.until ≤ LARGEST_WATT_HOURS }
{
    let run = run_at(basis, begin.seconds(), span.to.seconds());
    let Some(until) = Instant::of(run.until) else {
        unreachable!();
    };
    let Class {
        owner,
        period,
        band,
    } = run.class;
    let wh = span.level(until) - span.level(begin);
    Piece {
        begin,
        until,
        owner,
        period,
        band,
        wh,
    }
}

/// The pieces of a span, one behind another, from its first second up to its end, also those in
/// which nothing flows. Each is as long as can be: the next one has another owner, another period
/// or another band.
///
/// What they give an owner in a period and a band, added up, is what [`apportion`] gives.
/// It fails only where memory is refused.
pub fn pieces_of(
    alloc: Global,
    office: &Office,
    zone: &Zone,
    owners: &Owners,
    span: Span,
) -> Result<Vec<Piece>, AllocError>
    requires earlier { span.from < span.to }
    requires rising { span.low ≤ span.high }
    ensures { IfOk result (λ pieces. ListsPieces office.now owners.now span span.from
        pieces.items) }
{
    let basis = ClassBasis {
        office,
        zone,
        owners,
    };
    let mut pieces = Vec::new(alloc);
    let mut at = span.from;
    while at.seconds() < span.to.seconds() {
        let piece = piece_at(&basis, &span, at);
        at = piece.until;
        pieces.push(piece)?;
    }
    Ok(pieces)
}

/// What each owner gets of the difference in each period and band: the flow of the seconds of the span with that owner,
/// period and band, in Wh. Together the cells are the whole difference.
///
/// A cell stands for each owner, period and band with energy above 0, nobody first, then by account, by period, by band.
/// It fails only where memory is refused.
pub fn apportion(
    alloc: Global,
    office: &Office,
    zone: &Zone,
    owners: &Owners,
    span: Span,
) -> Result<Vec<Cell>, AllocError>
    requires earlier { span.from < span.to }
    requires rising { span.low ≤ span.high }
    ensures { IfOk result (λ cells. AreShares office.now owners.now span cells.items) }
{
    let basis = ClassBasis {
        office,
        zone,
        owners,
    };
    let mut cells = Vec::new(alloc);
    let mut at = span.from;
    while at.seconds() < span.to.seconds() {
        let piece = piece_at(&basis, &span, at);
        at = piece.until;
        if piece.wh > 0 {
            let share = Cell {
                owner: piece.owner,
                period: piece.period,
                band: piece.band,
                wh: piece.wh,
            };
            add(&mut cells, share)?;
        }
    }
    Ok(cells)
}
