//! What a person at a terminal is told beside the fault lines: which file can't be opened, and why.

use pw_words::words::command;
use pw_words::{Command, Source};
use std::fs;
use std::fs::File;
use std::io::{self, ErrorKind, Write};

/// Tells each file that the words name and that can't be opened, a line for each.
pub fn name_unreadable<E: Write>(rt: &HostRuntime, words: &[&str], err: &mut E) {
    let Ok(asked) = command(rt.alloc(), words) else {
        return;
    };
    match asked {
        Command::Read { .. } | Command::Pipe { office: None, .. } => {}
        Command::Check { office, .. } => name_file(rt, office, err),
        Command::Pipe {
            office: Some(office),
            ..
        } => name_file(rt, office, err),
        Command::Adopt(asked) => name_moved(rt, asked.office, asked.store, asked.new_office, err),
        Command::Carry(asked) => name_moved(rt, asked.office, asked.store, asked.new_office, err),
        Command::Load(asked) => {
            name_uploads(
                rt,
                asked.target.office,
                &asked.source,
                asked.target.store,
                err,
            );
        }
        Command::Verify(asked) => {
            name_uploads(rt, asked.office, &asked.source, asked.store, err);
        }
        Command::Statement { office, store, .. }
        | Command::Month { office, store, .. }
        | Command::Export { office, store, .. }
        | Command::Serve { office, store, .. } => {
            name_file(rt, office, err);
            name_store(rt, store, err);
        }
    }
}

// The files of a store that gets another office file, or is carried to it.
fn name_moved<E: Write>(
    rt: &HostRuntime,
    office: &str,
    store: &str,
    new_office: &str,
    err: &mut E,
) {
    name_file(rt, office, err);
    name_store(rt, store, err);
    name_file(rt, new_office, err);
}

// The files of uploads that are read for a store.
fn name_uploads<E: Write>(
    rt: &HostRuntime,
    office: &str,
    source: &Source<'_>,
    store: &str,
    err: &mut E,
) {
    name_file(rt, office, err);
    name_source(rt, source, err);
    name_store(rt, store, err);
}

fn name_source<E: Write>(rt: &HostRuntime, source: &Source<'_>, err: &mut E) {
    match source {
        Source::Files { files, .. } => {
            for file in files.as_slice() {
                name_file(rt, file, err);
            }
        }
        Source::List { list } => name_file(rt, list, err),
    }
}

// What is no plain file, as a pipe, isn't opened: what is written to it is for the command.
fn name_file<E: Write>(rt: &HostRuntime, path: &str, err: &mut E) {
    let unread = match fs::metadata(rt, path) {
        Ok(found) if !found.is_file() => None,
        Ok(_) => File::open(rt, path).err(),
        Err(error) => Some(error),
    };
    if let Some(error) = unread {
        name(path, &error, err);
    }
}

// A store that isn't there yet is made, if its folder is there.
fn name_store<E: Write>(rt: &HostRuntime, path: &str, err: &mut E) {
    match fs::metadata(rt, path) {
        Ok(found) if !found.is_file() => {
            let _ = writeln!(err, "powerbook: {path} is no file");
        }
        Ok(_) => name_file(rt, path, err),
        Err(error) if error.kind() == ErrorKind::NotFound => {
            let folder = match path.rfind('/') {
                Some(at) => &path[..at],
                None => ".",
            };
            if folder != "" && fs::metadata(rt, folder).is_err() {
                name(folder, &error, err);
            }
        }
        Err(error) => name(path, &error, err),
    }
}

fn name<E: Write>(path: &str, error: &io::Error, err: &mut E) {
    let _ = writeln!(err, "powerbook: {path}: {error}");
}
