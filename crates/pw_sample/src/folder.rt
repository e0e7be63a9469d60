//! The folder of a sample: its uploads, numbered in the order in which they are loaded, and the list of them.

use crate::fault::{Fault, fault_at};
use std::fs;

/// A folder, in which numbered uploads and the list of them are made.
#[derive(Drop)]
pub struct Folder<'a> {
    rt: &'a HostRuntime,
    path: &'a str,
    /// What is to be loaded, in order: a kind, a file and for readouts a meter, a line each.
    list: String,
    /// How many uploads there are.
    pub files: u32,
}

impl<'a> Folder<'a> {
    /// Makes a folder that isn't there yet.
    pub fn make(rt: &'a HostRuntime, path: &'a str) -> Result<Folder<'a>, Fault> {
        match fs::create_dir(rt, path) {
            Ok(()) => Ok(Folder {
                rt,
                path,
                list: String::new(rt.alloc()),
                files: 0,
            }),
            Err(error) => {
                let path = String::from_str(rt.alloc(), path)?;
                Err(fault_at(path, &error))
            }
        }
    }

    /// Makes a file of the folder.
    pub fn write(&self, name: &str, bytes: &[u8]) -> Result<(), Fault> {
        let (alloc, folder) = (self.rt.alloc(), self.path);
        let path = format!(in alloc; "{folder}/{name}")?;
        match fs::write(self.rt, path.as_str(), bytes) {
            Ok(()) => Ok(()),
            Err(error) => Err(fault_at(path, &error)),
        }
    }

    /// Makes the file of an upload behind those before it.
    pub fn add_upload(&mut self, kind: &str, bytes: &[u8]) -> Result<(), Fault> {
        let number = self.next_number();
        writeln!(self.list, "{kind} {number:06}.{kind}")?;
        let name = format!(in self.rt.alloc(); "{number:06}.{kind}")?;
        self.write(name.as_str(), bytes)
    }

    /// Makes the file of a meter's readouts behind the uploads before it.
    pub fn add_readouts(&mut self, meter: &str, bytes: &[u8]) -> Result<(), Fault> {
        let number = self.next_number();
        writeln!(self.list, "readouts {number:06}.readouts.{meter} {meter}")?;
        let name = format!(in self.rt.alloc(); "{number:06}.readouts.{meter}")?;
        self.write(name.as_str(), bytes)
    }

    fn next_number(&mut self) -> u32 {
        self.files = self.files.saturating_add(1);
        self.files
    }

    /// Makes the file that lists the uploads.
    pub fn write_list(&self) -> Result<(), Fault> {
        self.write("loads", self.list.as_bytes())
    }
}
