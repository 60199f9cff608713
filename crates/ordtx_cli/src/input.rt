//! Where a document comes from: standard input, or a file.
use crate::arguments::{bytes_of, shown};
use ordtx::{Code, Fault};
use std::alloc::Global;
use std::fs::File;
use std::io::{Error, ErrorKind, Read, Stdin};
use std::{io, str};

/// An input that was opened. It keeps why the last read failed, if one did.
#[derive(Drop)]
pub struct Input {
    device: Device,
    refused: Option<Error>,
}

#[derive(Drop)]
enum Device {
    Standard(Stdin),
    Named(File),
}

impl Input {
    // The input of this name.
    fn of(rt: &HostRuntime, name: Option<&str>) -> io::Result<Input> {
        let device = match name {
            Some(file) if !is_standard(name) => Device::Named(open_file(rt, rt.alloc(), file)?),
            _ => Device::Standard(rt.stdin()),
        };
        Ok(Input {
            device,
            refused: None,
        })
    }

    /// How many bytes a file has, or 0 where that isn't known.
    pub fn size(&self) -> usize {
        match &self.device {
            Device::Standard(_) => 0,
            Device::Named(file) => match file.metadata() {
                Ok(metadata) => usize::try_from(metadata.len()).unwrap_or(0),
                Err(_) => 0,
            },
        }
    }
}

/// Whether a name stands for standard input, as no name and `-` do.
pub fn is_standard(name: Option<&str>) -> bool {
    matches!(name, None | Some("-"))
}

/// Opens standard input, or the file of this name. The name is a text that stands for its bytes
/// (`arguments`). Why it can't be opened is written to standard error.
pub fn open(rt: &HostRuntime, name: Option<&str>) -> Result<Input, Fault> {
    match Input::of(rt, name) {
        Ok(input) => Ok(input),
        Err(error) if error.kind() == ErrorKind::OutOfMemory => Err(Code::Memory.outside()),
        Err(error) => {
            tell(rt, "cannot open", name, &error);
            Err(Code::Input.outside())
        }
    }
}

/// Writes to standard error why a read of this input failed, if one did.
pub fn tell_refused(rt: &HostRuntime, name: Option<&str>, input: &Input) {
    if let Some(error) = &input.refused {
        tell(rt, "cannot read", name, error);
    }
}

// Writes to standard error what could not be done with an input, and why.
fn tell(rt: &HostRuntime, what: &str, name: Option<&str>, error: &Error) {
    let _ = match name {
        Some(file) if !is_standard(name) => match shown(rt.alloc(), file) {
            Ok(file) => eprintln!(rt; "ordtx: {what} '{file}': {error}"),
            Err(_) => eprintln!(rt; "ordtx: {what} a file: {error}"),
        },
        _ => eprintln!(rt; "ordtx: {what} standard input: {error}"),
    };
}

// `std` opens only files whose names are texts.
fn open_file(rt: &HostRuntime, alloc: Global, name: &str) -> io::Result<File> {
    let bytes = bytes_of(alloc, name)?;
    match str::from_utf8(&bytes) {
        Ok(name) => File::open(rt, name),
        Err(_) => Err(Error::new(
            ErrorKind::InvalidInput,
            "the name is not UTF-8: give the file as standard input",
        )),
    }
}

impl Read for Input {
    fn read(&mut self, piece: &mut [u8]) -> io::Result<usize> {
        let read = match &mut self.device {
            Device::Standard(device) => device.read(piece),
            Device::Named(device) => device.read(piece),
        };
        match read {
            Ok(count) => Ok(count),
            Err(error) => {
                let kind = error.kind();
                self.refused = Some(error);
                Err(Error::from(kind))
            }
        }
    }
}
