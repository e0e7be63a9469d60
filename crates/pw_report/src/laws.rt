//! The laws of the texts.
//!
//! Each function does nothing. What counts is its contract, a law of the definitions in `specs/`, which is proved for
//! all sets of records.

ghost use Rattle.pw_report.specs.Laws.{CentsAreGreatest, EachPageHasOneText, ExportsAreUploads, ExportsMoveBooks, MonthsAreAllTime, NothingIsLostInExport};

/// The cents of an amount are the greatest whole number of them that isn't above it.
pub fn cents_are_greatest()
    ensures { CentsAreGreatest }
{}

/// A set of records has one text of each page, of a month one from 2000-01 to 2099-12, whatever the order in which its
/// records are listed.
pub fn each_page_has_one_text()
    ensures { EachPageHasOneText }
{}

/// The bill of a month ends with the balance that the next month's begins with, and the bills of both are one bill. The first
/// month begins with the first instant, and the last one ends behind the last instant.
pub fn months_are_all_time()
    ensures { MonthsAreAllTime }
{}

/// What was exported of assignments, of top-ups or of withdrawals can be uploaded: any part of it of at most 1,000 rows below
/// its header is an upload that gives the records that were exported, and no others, where these are of a sound office file.
pub fn exports_are_uploads()
    ensures { ExportsAreUploads }
{}

/// A book moves to another one of the same office by what it exports: the assignments, top-ups and withdrawals in parts of
/// at most 1,000 rows, each below its header, and telegrams or readouts that bring each reading held and no other. Behind all
/// these uploads, in whatever order, a book in which nothing was held has the same records.
pub fn exports_move_books()
    ensures { ExportsMoveBooks }
{}

/// Conservation of energy: over all owners with nobody and all bands, the energies of a direction that are exported add up
/// to the rises of all its neighbours that don't fall, where all records are of a sound office file.
pub fn nothing_is_lost_in_the_export()
    ensures { NothingIsLostInExport }
{}
