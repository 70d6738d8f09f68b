// The desk of a process: its files, standard output and standard error. It is the trusted edge: nothing is told of
// what the system does with the bytes.
use desk::{Desk, DeskError, FetchError};
use std::alloc::Global;
use std::io::{Read, Write};
use std::{fs, io};

#[derive(Drop)]
pub(crate) struct HostDesk<'r> {
    rt: &'r HostRuntime,
    fetch_faults: u64,
    write_faults: u64,
}

impl<'r> HostDesk<'r> {
    ghost use Rattle.std.specs.Prelude.{◌≡◌, IsErr};
    ghost use Rattle.desk.specs.Desk.{FetchHasCause, WriteHasCause};

    pub(crate) fn new(rt: &'r HostRuntime) -> Self {
        HostDesk {
            rt,
            fetch_faults: 0,
            write_faults: 0,
        }
    }

    // What a fetch answers after an error, which counts as a fault unless memory was wanting.
    fn refused(&mut self, error: &io::Error) -> Result<Vec<u8>, FetchError>
        ensures failed { IsErr result }
        ensures cause { FetchHasCause self.old.fetch_faults self.new.fetch_faults result }
        ensures others { self.new.write_faults ≡ self.old.write_faults }
    {
        if error.kind() == io::ErrorKind::OutOfMemory {
            return Err(FetchError::Memory);
        }
        self.fetch_faults = self.fetch_faults.saturating_add(1);
        Err(FetchError::Failed)
    }

    // What a write answers, of which an error counts as a fault.
    fn written(&mut self, written: io::Result<()>) -> Result<(), DeskError>
        ensures cause { WriteHasCause self.old.write_faults self.new.write_faults result }
        ensures others { self.new.fetch_faults ≡ self.old.fetch_faults }
    {
        if written.is_err() {
            self.write_faults = self.write_faults.saturating_add(1);
            return Err(DeskError::Failed);
        }
        Ok(())
    }
}

// The bytes of a file, or the first of them where there are more than so many.
fn read_some(rt: &HostRuntime, alloc: Global, name: &str, most: usize) -> io::Result<Vec<u8>> {
    let file = fs::open(rt, name)?;
    let mut bytes = Vec::new(alloc);
    file.take(most as u64).read_to_end(&mut bytes)?;
    Ok(bytes)
}

impl Desk for HostDesk<'_> {
    ghost use Rattle.std.specs.Prelude.{None};

    ghost view = { λ d. record { files = None; printed = None; warned = None; fetched = None; fetch_faults = d.fetch_faults; write_faults = d.write_faults } };

    fn fetch(&mut self, alloc: Global, name: &str, most: usize) -> Result<Vec<u8>, FetchError> {
        match read_some(self.rt, alloc, name, most.saturating_add(1)) {
            Ok(bytes) => {
                if bytes.len() <= most {
                    Ok(bytes)
                } else {
                    Err(FetchError::TooLong)
                }
            }
            Err(error) => self.refused(&error),
        }
    }

    fn put(&mut self, name: &str, bytes: &[u8]) -> Result<(), DeskError> {
        let written = fs::write(self.rt, name, bytes);
        self.written(written)
    }

    fn print(&mut self, bytes: &[u8]) -> Result<(), DeskError> {
        let written = self.rt.stdout().write_all(bytes);
        self.written(written)
    }

    fn warn(&mut self, bytes: &[u8]) -> Result<(), DeskError> {
        let written = self.rt.stderr().write_all(bytes);
        self.written(written)
    }
}
