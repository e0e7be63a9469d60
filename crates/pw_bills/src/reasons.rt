//! Why a bill is what it is.

ghost use Rattle.std.specs.Prelude.{◌<◌, ◌≤◌, IfOk};
ghost use Rattle.pw_time.specs.declared.instant.TheConstants.{END_SECOND};
ghost use Rattle.pw_tariff.specs.Office.{office_of};
ghost use Rattle.pw_book.specs.Questions.{IsQuestion};
ghost use Rattle.pw_bills.specs.Reads.{CostsMeters};
ghost use Rattle.pw_bills.specs.Why.{TellsWhy};
ghost use Rattle.pw_bills.specs.inner.Rows.{AddsRows};

use crate::gathering::{Gathers, Place, gather};
use crate::pieces::add_points;
use crate::points::points_over;
use pw_book::{Book, BookFault};
use pw_obis::Register;
use pw_shelf::{Shelf, ShelfFault};
use pw_tariff::{AccountId, MeterId, Piece, Span};
use pw_time::Instant;
use std::alloc::Global;

/// A row of why: a piece of the difference between two readings of a register, and what it gives.
#[derive(Clone, Copy, Debug, PartialEq, Eq)]
pub struct WhyPiece {
    pub meter: MeterId,
    pub register: Register,
    /// The two readings.
    pub span: Span,
    /// Within the interval that is asked for, and the account's.
    pub piece: Piece,
}

// The rows of why, one register behind another.
#[derive(Drop)]
struct Reasons {
    rows: Vec<WhyPiece>,
}

/// Why the bill of an account is what it is, from an instant on and up to and without a later
/// second, by the records held: each piece of a pair of readings that gave it energy in that time,
/// by meter, register and time.
///
/// A pair is one of neighbours that count and don't fall. A piece has seconds of the account of one
/// period and one band, as many as there are one behind another; it gives the difference of the
/// levels of the whole pair at its ends, in Wh. Together they give all that the bill tells.
///
/// As with each question to a book, `Device`, `Memory` and `Reopen` (of a shut book) leave the
/// records as they are. It asks for an end that isn't behind that of all instants.
pub fn why<S: Shelf>(
    book: &mut Book<S>,
    alloc: Global,
    account: AccountId,
    from: Instant,
    until: u32,
) -> Result<Vec<WhyPiece>, BookFault>
    requires later { from < until }
    requires ended { until ≤ END_SECOND }
    ensures rows { S.clean book.new.shelf → IfOk result
        (λ pieces. TellsWhy (office_of book.old.office) (S.state book.old.shelf).content.records
        account from until pieces.items) }
    ensures cost { CostsMeters S.Shelf account.0 from until book.old book.new }
    ensures question { IsQuestion S.Shelf result book.old book.new }
{
    let begins = [from];
    let rows = Vec::new(alloc);
    let mut reasons = Reasons { rows };
    gather(book, alloc, account, &begins, until, &mut reasons)?;
    Ok(reasons.rows)
}

// A register adds the pieces of its neighbouring pairs that give the account something.
impl Gathers for Reasons {
    ghost adds = { AddsRows };

    fn add_register<S: Shelf>(&mut self, shelf: &mut S, place: &Place) -> Result<(), ShelfFault> {
        let points = points_over(shelf, place)?;
        add_points(place, &points, &mut self.rows)?;
        Ok(())
    }
}
