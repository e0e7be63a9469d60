//! How many rows an answer gives.

ghost use Rattle.std.specs.Prelude.{◌≡◌};
ghost use Rattle.pw_shelf.specs.Rows.{rows_at, rows_found, rows_given, rows_listed, rows_total};

use crate::fault::ShelfFault;
use pw_model::Contents;

// A row for each of a list.
pub(crate) fn of_list<T>(answer: &Result<Vec<T>, ShelfFault>) -> u64
    ensures { result ≡ rows_given rows_listed answer.now }
{
    match answer {
        Ok(found) => found.len() as u64,
        Err(_) => 0,
    }
}

// A row for each content that is told, where two stand for several.
pub(crate) fn of_contents(answer: &Result<Contents, ShelfFault>) -> u64
    ensures { result ≡ rows_given rows_at answer.now }
{
    match answer {
        Ok(Contents::One(_)) => 1,
        Ok(Contents::Several) => 2,
        Ok(Contents::Nothing) | Err(_) => 0,
    }
}

// One row, where there is one.
pub(crate) fn of_option<T>(answer: &Result<Option<T>, ShelfFault>) -> u64
    ensures { result ≡ rows_given rows_found answer.now }
{
    match answer {
        Ok(Some(_)) => 1,
        Ok(None) | Err(_) => 0,
    }
}

// One row for a total above 0; none for 0, as what isn't kept is 0 too.
pub(crate) fn of_total(answer: &Result<u64, ShelfFault>) -> u64
    ensures { result ≡ rows_given rows_total answer.now }
{
    match answer {
        Ok(0) | Err(_) => 0,
        Ok(_) => 1,
    }
}
