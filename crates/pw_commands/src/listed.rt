//! Lists of uploads in files.

ghost use Rattle.std.specs.Prelude.{IfErr};
ghost use Rattle.pw_commands.specs.inner.Listed.{IsOfList};

use crate::fault::Fault;
use crate::files::read_file;
use pw_record::UploadKind;
use pw_words::Source;
use pw_words::words::kind_named;
use std::alloc::{AllocError, Global};
use std::str;

// The longest list, in bytes.
const LONGEST_LIST: u32 = 16_777_216;

// An upload in a file.
#[derive(Debug, Drop, PartialEq, Eq)]
pub(crate) struct Upload<'a> {
    pub(crate) kind: UploadKind<'a>,
    pub(crate) path: String,
}

// The uploads that a source names; `lines` keeps a list's, of which they borrow.
pub(crate) fn uploads_from<'a>(
    rt: &HostRuntime,
    source: Source<'a>,
    lines: &'a mut Vec<u8>,
) -> Result<Vec<Upload<'a>>, Fault> {
    match source {
        Source::Files { kind, files } => Ok(uploads_in(rt.alloc(), kind, files.as_slice())?),
        Source::List { list } => {
            *lines = read_file(rt, list, LONGEST_LIST)?;
            uploads_of(rt.alloc(), list, lines.as_slice())
        }
    }
}

// The uploads of files of one kind.
fn uploads_in<'a>(
    alloc: Global,
    kind: UploadKind<'a>,
    files: &[&str],
) -> Result<Vec<Upload<'a>>, AllocError> {
    let mut uploads = Vec::with_capacity(alloc, files.len())?;
    for file in files {
        let path = String::from_str(alloc, file)?;
        uploads.push(Upload { kind, path })?;
    }
    Ok(uploads)
}

// The uploads that a list names, a line each: kind and file, and of readouts the meter. A word in quotes may have
// spaces; a file without a root stands in the folder of the list; an empty line says nothing.
//
// `List` with the number of the first line that names none; `Memory`.
fn uploads_of<'a>(alloc: Global, list: &str, text: &'a [u8]) -> Result<Vec<Upload<'a>>, Fault>
    ensures { IfErr result IsOfList }
{
    let text = match str::from_utf8(text) {
        Ok(text) => text,
        Err(error) => return Err(wrong_line(&text[..error.valid_up_to()])),
    };
    let mut uploads = Vec::new(alloc);
    let mut line = 0u32;
    for text in text.lines() {
        line = line.saturating_add(1);
        if text.trim().is_empty() {
            continue;
        }
        let Some((kind, file)) = named_in(text) else {
            return Err(Fault::List { line });
        };
        let path = path_from(alloc, list, file)?;
        uploads.push(Upload { kind, path })?;
    }
    Ok(uploads)
}

// The line behind these bytes is the wrong one.
fn wrong_line(before: &[u8]) -> Fault
    ensures { IsOfList result }
{
    let mut line = 1u32;
    for byte in before {
        if *byte == b'\n' {
            line = line.saturating_add(1);
        }
    }
    Fault::List { line }
}

// The kind and the file that a line names.
fn named_in(line: &str) -> Option<(UploadKind<'_>, &str)> {
    let (kind, rest) = first_word(line)?;
    let (file, rest) = first_word(rest)?;
    let (meter, rest) = first_word(rest)?;
    if file.is_empty() || !rest.trim().is_empty() {
        return None;
    }
    let meter = if meter.is_empty() { None } else { Some(meter) };
    match kind_named(kind, meter)? {
        UploadKind::Readouts(id) => Some((UploadKind::Readouts(id), file)),
        kind if meter.is_none() => Some((kind, file)),
        _ => None,
    }
}

// The first word, which may be empty, and what stands behind it. None where a quote isn't closed.
fn first_word(text: &str) -> Option<(&str, &str)> {
    let text = text.trim_start();
    match text.strip_prefix('"') {
        Some(quoted) => quoted.split_once('"'),
        None => Some(text.split_once(' ').unwrap_or((text, ""))),
    }
}

// The path of a file that a list names.
fn path_from(alloc: Global, list: &str, file: &str) -> Result<String, AllocError> {
    match list.rfind('/') {
        Some(at) if !file.starts_with('/') => {
            let folder = &list[..at];
            format!(in alloc; "{folder}/{file}")
        }
        _ => String::from_str(alloc, file),
    }
}
