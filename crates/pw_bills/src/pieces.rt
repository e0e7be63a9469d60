//! The rows of why that neighbouring readings give.

ghost use Rattle.std.specs.Prelude.{◌≡◌, ◌<◌, ◌++◌, OnOk, map};
ghost use Rattle.std.specs.List.{filter};
ghost use Rattle.pw_model.specs.Lists.{IsInOrder};
ghost use Rattle.pw_model.specs.Seconds.{by_second};
ghost use Rattle.pw_bills.specs.inner.Rows.{Adds, GivenBetween, GivenByPoints, gives_something, piece_of, why_of};

use crate::gathering::Place;
use crate::reasons::WhyPiece;
use pw_parts::Point;
use pw_tariff::{AccountId, Piece, Span, pieces_of};
use std::alloc::AllocError;

// Adds the rows of a register: what the neighbouring pairs of its points give the account, under
// owners that name the one stretch that is asked for.
pub(crate) fn add_points(
    place: &Place,
    points: &[Point],
    rows: &mut Vec<WhyPiece>,
) -> Result<(), AllocError>
    ensures { IsInOrder by_second points.now
        → OnOk result (Adds (GivenByPoints place.now.basis.now.office.now place.now.owners.now
        place.now.stretches.now.account place.now.meter place.now.register points.now)
        rows.old.items rows.new.items) }
{
    for pair in points.windows(2) {
        add_pair(place, pair[0], pair[1], rows)?;
    }
    Ok(())
}

// Adds the rows of a pair of points: none where the later shows less.
fn add_pair(
    place: &Place,
    from: Point,
    to: Point,
    rows: &mut Vec<WhyPiece>,
) -> Result<(), AllocError>
    ensures { from.0 < to.0 → OnOk result
        (Adds (GivenBetween place.now.basis.now.office.now place.now.owners.now
        place.now.stretches.now.account place.now.meter place.now.register from to) rows.old.items
        rows.new.items) }
{
    if to.0 <= from.0 {
        return Ok(());
    }
    if to.1.get() < from.1.get() {
        return Ok(());
    }
    let span = Span {
        from: from.0,
        to: to.0,
        low: from.1,
        high: to.1,
    };
    let basis = place.basis;
    let pieces = pieces_of(basis.alloc, basis.office, basis.zone, place.owners, span)?;
    add_pieces(place, &span, &pieces, rows)
}

// Adds a row for each piece that gives the account something.
fn add_pieces(
    place: &Place,
    span: &Span,
    pieces: &[Piece],
    rows: &mut Vec<WhyPiece>,
) -> Result<(), AllocError>
    ensures { OnOk result (rows.new.items
        ≡ rows.old.items ++ map (why_of place.now.stretches.now.account place.now.meter
        place.now.register span.now) (filter gives_something pieces.now)) }
{
    for piece in pieces {
        if gives(piece) {
            rows.push(WhyPiece {
                meter: place.meter,
                register: place.register,
                span: *span,
                piece: told_as(piece, place.stretches.account),
            })?;
        }
    }
    Ok(())
}

// Whether a piece gives the account something, under the number of the one stretch.
fn gives(piece: &Piece) -> bool
    ensures { result ≡ gives_something piece.now }
{
    match piece.owner {
        Some(stretch) => stretch.0 == 0 && piece.wh > 0,
        None => false,
    }
}

// The piece, told as the account's.
fn told_as(piece: &Piece, account: AccountId) -> Piece
    ensures { result ≡ piece_of account piece.now }
{
    Piece {
        owner: Some(account),
        ..*piece
    }
}
