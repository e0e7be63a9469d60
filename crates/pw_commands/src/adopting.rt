//! Another office file in the place of a store's own.

ghost use Rattle.std.specs.Prelude.{◌≡◌, IfOk, IfErr, false};
ghost use Rattle.sqlite.specs.Held.{state};
ghost use Rattle.sqlite.specs.State.{HasCleanDisk, KeepsCommit};
ghost use Rattle.sqlite.specs.Files.{file_state};
ghost use Rattle.pw_tariff.specs.Office.{office_of};
ghost use Rattle.pw_tariff.specs.Text.{IsOfficeOf};
ghost use Rattle.pw_model.specs.Laws.{HaveSameFigures};
ghost use Rattle.pw_moving.specs.Laws.{IsKept};
ghost use Rattle.pw_schema.specs.Judging.{KeepsOffice};
ghost use Rattle.pw_store.specs.Kept.{written_of};
ghost use Rattle.pw_store.specs.Opening.{KeepsText};
ghost use Rattle.pw_commands.specs.Adoptions.{MayTake};

use crate::fault::Fault;
use crate::offices::read_office;
use crate::store::{FileBook, close_book, close_store, open_book};
use crate::telling::{finish, tell, write_whole};
use crate::weighing::{Weighed, weigh};
use pw_book::Book;
use pw_found::Purpose;
use pw_model::MOST_RECORDS;
use pw_moving::Respelling;
use pw_shelf::Shelf;
use pw_store::{OpenFault, SqlShelf, Watch};
use pw_tariff::Office;
use pw_words::{Adoption, Renamed};
use sqlite::{Alter, Connection};
use std::alloc::{AllocError, Global};
use std::io::Write;

// Gives a store another office file, where that adopts its records, and answers the exit status. What changes is told to
// `out`; where it isn't adopted to `err`, with the fault's line.
pub(crate) fn adopt<O: Write, E: Write, W: Watch>(
    rt: &HostRuntime,
    asked: Adoption<'_>,
    out: &mut O,
    err: &mut E,
    watch: &mut W,
) -> u8 {
    match adopted(rt, &asked, watch) {
        Ok(Weighed { text, adopts: true }) => finish(rt.alloc(), Ok(text), out, err),
        Ok(Weighed { text, .. }) => match write_whole(err, text.as_slice()) {
            Ok(()) => tell(rt.alloc(), Fault::NotAdopted, err),
            Err(fault) => fault.status(),
        },
        Err(fault) => tell(rt.alloc(), fault, err),
    }
}

fn adopted<W: Watch>(
    rt: &HostRuntime,
    asked: &Adoption<'_>,
    watch: &mut W,
) -> Result<Weighed, Fault> {
    let (office, text) = read_office(rt, asked.office)?;
    let (new, new_text) = read_office(rt, asked.new_office)?;
    adopt_store(rt, asked, office, &text, new, &new_text, watch)
}

// Gives the store of an office file another one, once both files are read.
fn adopt_store<W: Watch>(
    rt: &HostRuntime,
    asked: &Adoption<'_>,
    office: Office,
    text: &[u8],
    new: Office,
    new_text: &[u8],
    watch: &mut W,
) -> Result<Weighed, Fault>
    requires old { IsOfficeOf text.now office }
    requires new { IsOfficeOf new_text.now new }
{
    let words = respellings(rt.alloc(), asked.renamed.as_slice())?;
    let store = asked.store;
    match open_book(rt, store, Purpose::Ask, office, text, MOST_RECORDS, watch) {
        Ok(book) => adopt_in(rt, book, &new, new_text, &words, asked.dry, watch),
        Err(fault) if fault == Fault::Store(OpenFault::OfficeDiffers) => {
            has_new(rt, store, new, new_text, watch)
        }
        Err(fault) => Err(fault),
    }
}

fn respellings<'a>(
    alloc: Global,
    renamed: &[Renamed<'a>],
) -> Result<Vec<Respelling<'a>>, AllocError> {
    let mut words = Vec::with_capacity(alloc, renamed.len())?;
    for word in renamed {
        words.push(Respelling {
            old: word.old.as_bytes(),
            new: word.new.as_bytes(),
        })?;
    }
    Ok(words)
}

// Of a store that another office file refuses: whether it has the new one already.
fn has_new<W: Watch>(
    rt: &HostRuntime,
    store: &str,
    new: Office,
    new_text: &[u8],
    watch: &mut W,
) -> Result<Weighed, Fault>
    requires { IsOfficeOf new_text.now new }
{
    let book = open_book(rt, store, Purpose::Ask, new, new_text, MOST_RECORDS, watch)?;
    close_book(book)?;
    told_as_new(rt.alloc())
}

fn told_as_new(alloc: Global) -> Result<Weighed, Fault> {
    let mut text = Vec::new(alloc);
    text.extend_from_slice(b"the store has this office file\n")?;
    Ok(Weighed { text, adopts: true })
}

// Weighs a new office file over a store, and puts it in the old one's place where it adopts the records.
fn adopt_in<W: Watch>(
    rt: &HostRuntime,
    mut book: FileBook,
    new: &Office,
    new_text: &[u8],
    words: &[Respelling<'_>],
    dry: bool,
    watch: &mut W,
) -> Result<Weighed, Fault>
    requires { IsOfficeOf new_text.now new.now }
{
    match weigh(rt.alloc(), &mut book, new, words) {
        Ok(weighed) if weighed.adopts && !dry => {
            take_place(rt.alloc(), book, new, new_text, words, watch)?;
            Ok(weighed)
        }
        weighed => {
            close_book(book)?;
            Ok(weighed?)
        }
    }
}

// Puts a new office file in the place of a store's own, and closes the store.
fn take_place<W: Watch>(
    alloc: Global,
    book: FileBook,
    new: &Office,
    new_text: &[u8],
    words: &[Respelling<'_>],
    watch: &mut W,
) -> Result<(), Fault>
    requires text { IsOfficeOf new_text.now new.now }
    requires open_yet { book.shut ≡ false }
    requires adopted { HasCleanDisk (file_state book.shelf.conn)
        → MayTake words.now (record { old = book.office; new = new.now })
        (written_of (file_state book.shelf.conn) (file_state book.shelf.base.value)).records }
{
    match adopt_book(alloc, book, new, new_text, words, watch) {
        Ok(shelf) => close_store(shelf.close()),
        Err((fault, connection)) => {
            let _ = close_store(connection);
            Err(Fault::Store(fault))
        }
    }
}

/// Gives the store of a book another office file, which adopts its records. Not one of them changes, and neither does an
/// energy, a cost or a balance.
pub fn adopt_book<S: Alter, W: Watch>(
    alloc: Global,
    book: Book<SqlShelf<S>>,
    new: &Office,
    new_text: &[u8],
    words: &[Respelling<'_>],
    watch: &mut W,
) -> Result<SqlShelf<S>, (OpenFault, Connection<S>)>
    requires text { IsOfficeOf new_text.now new.now }
    requires open_yet { book.shut ≡ false }
    requires adopted { HasCleanDisk (state S.Store book.shelf.conn)
        → MayTake words.now (record { old = book.office; new = new.now })
        (⟦<SqlShelf<S> as Shelf>⟧.state book.shelf).content.records }
    ensures content { IfOk result (λ s. HasCleanDisk (state S.Store s.conn)
        → (⟦<SqlShelf<S> as Shelf>⟧.state s).content
        ≡ (⟦<SqlShelf<S> as Shelf>⟧.state book.shelf).content) }
    ensures kept { IfOk result (λ s. HasCleanDisk (state S.Store s.conn)
        → IsKept (office_of new.now) (⟦<SqlShelf<S> as Shelf>⟧.state s).content) }
    ensures kept_text { IfOk result (λ s. HasCleanDisk (state S.Store s.conn)
        → KeepsText (KeepsOffice new_text.now) (state S.Store s.conn).now.trees) }
    ensures figures { IfOk result (λ s. HasCleanDisk (state S.Store s.conn)
        → HaveSameFigures (office_of book.office) (office_of new.now)
        (⟦<SqlShelf<S> as Shelf>⟧.state s).content.records) }
    ensures refused { IfErr result (λ e. HasCleanDisk (state S.Store e.1)
        → KeepsCommit (state S.Store book.shelf.conn) (state S.Store e.1)) }
{
    let _ = new;
    let _ = words;
    book.into_shelf().adopt(alloc, new_text, watch)
}
