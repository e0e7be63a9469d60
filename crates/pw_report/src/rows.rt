//! Rows of CSV, written by `csv` to memory.

ghost use Rattle.std.specs.Prelude.{◌≡◌, ◌∷◌, ◌++◌, ℕ, List, [], IfErr, IfOk, OnOk, map};
ghost use Rattle.std.specs.List.{flat_map};
ghost use Rattle.pw_book.specs.declared.fault.BookFault.TheVariants.{Memory};
ghost use Rattle.pw_report.specs.Exports.{csv_line};
ghost use Rattle.pw_report.specs.inner.Rows.{AddsFields, AddsLines, HasText};

use csv::{ByteRecord, Writer, WriterBuilder};
use pw_book::BookFault;
use std::alloc::Global;

// Rows of CSV, each ended by LF, and the fields of the row that is being made.
#[derive(Drop)]
pub(crate) struct Rows {
    writer: Writer<Vec<u8>>,
    row: ByteRecord,
}

impl Rows {
    // No row yet. It takes no memory.
    pub(crate) fn new(alloc: Global) -> Rows
        ensures { HasText result [] [] }
    {
        Rows {
            writer: WriterBuilder::new()
                .flexible(true)
                .from_writer(Vec::new(alloc)),
            row: ByteRecord::new(alloc),
        }
    }

    // One field more of the row.
    pub(crate) fn put_field(&mut self, field: &[u8]) -> Result<(), BookFault>
        ensures text { AddsFields result (field.now ∷ []) self.old self.new }
        ensures fault { IfErr result (λ fault. fault ≡ Memory) }
    {
        self.row.push_field(field)?;
        Ok(())
    }

    // A header: a row of these names.
    pub(crate) fn put_header(&mut self, names: &[&[u8]]) -> Result<(), BookFault>
        ensures text { AddsLines result (csv_line (map (λ name. name.now) names.now)) self.old
            self.new }
        ensures fault { IfErr result (λ fault. fault ≡ Memory) }
    {
        for name in names {
            self.put_field(name)?;
        }
        self.end()
    }

    // Ends the row, and begins the next one. It may have another number of fields than the first. (So `csv` refuses nothing
    // but for want of memory.)
    pub(crate) fn end(&mut self) -> Result<(), BookFault>
        ensures text { (text : List ℕ) (fields : List (List ℕ)) → HasText self.old text fields
            → OnOk result (HasText self.new (text ++ csv_line fields) []) }
        ensures fault { IfErr result (λ fault. fault ≡ Memory) }
    {
        let Ok(()) = self.writer.write_byte_record(&self.row) else {
            return Err(BookFault::Memory);
        };
        self.row.clear();
        Ok(())
    }

    // The text of all rows that were ended.
    pub(crate) fn finish(self) -> Result<Vec<u8>, BookFault>
        ensures text { (text : List ℕ) (fields : List (List ℕ)) → HasText self text fields
            → IfOk result (λ bytes. bytes.items ≡ text) }
        ensures fault { IfErr result (λ fault. fault ≡ Memory) }
    {
        match self.writer.into_inner() {
            Ok(text) => Ok(text),
            Err(_) => Err(BookFault::Memory),
        }
    }
}

// What tells values of a type, each in a row.
pub(crate) trait Tells<T> {
    /// The line of a value.
    ghost line: { Self → T → List ℕ };

    /// Writes the row of a value.
    fn tell(&self, rows: &mut Rows, value: &T) -> Result<(), BookFault>
        ensures text { AddsLines result (line self.now value.now) rows.old rows.new }
        ensures fault { IfErr result (λ fault. fault ≡ Memory) };
}

// Writes the row of each value.
pub(crate) fn tell_each<T, W: Tells<T>>(
    rows: &mut Rows,
    teller: &W,
    values: &[T],
) -> Result<(), BookFault>
    ensures text { AddsLines result (flat_map (W.Tells.line teller.now) values.now) rows.old
        rows.new }
    ensures fault { IfErr result (λ fault. fault ≡ Memory) }
{
    for value in values {
        teller.tell(rows, value)?;
    }
    Ok(())
}
