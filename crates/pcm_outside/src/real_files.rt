//! The files of the system.
ghost use Rattle.std.specs.Prelude.{◌≡◌, ◌≤◌, false, None, Some, vec_items, is_some, option_map};
ghost use Rattle.pcm_outside.specs.Counts.{raised};
ghost use Rattle.pcm_outside.specs.Edge.{untold_files};

use crate::outside::{Files, ReadFault, WriteFault};
use crate::transfer::{read_front, write_whole};
use std::alloc::Global;
use std::{fs, rt};

/// The files of the system, reached through the runtime. They show no contents.
#[derive(Drop)]
pub struct RealFiles<'a, R: rt::Files> {
    rt: &'a R,
    file: Option<R::File>,
    read_faults: u64,
    write_faults: u64,
    failed: Option<Vec<u8>>,
}

impl<'a, R: rt::Files> RealFiles<'a, R> {
    /// Makes files with no failure counted, and none created.
    pub fn new(rt: &'a R) -> RealFiles<'a, R>
        ensures { ⟦<RealFiles<'a, R> as Files>⟧.seen result ≡ untold_files false 0 0 None }
    {
        RealFiles {
            rt,
            file: None,
            read_faults: 0,
            write_faults: 0,
            failed: None,
        }
    }

    /// How many creates and appends failed.
    pub fn write_faults(&self) -> u64
        ensures { result ≡ (⟦<RealFiles<'a, R> as Files>⟧.seen self.now).write_faults }
    {
        self.write_faults
    }

    fn fail_read(&mut self, name: Vec<u8>) -> ReadFault
        ensures fault { result ≡ ReadFault.Failed }
        ensures count { self.old.read_faults ≤ self.new.read_faults }
        ensures after { self.new ≡ record self.old {
          read_faults = raised self.old.read_faults;
          failed = Some name;
        } }
    {
        self.read_faults = self.read_faults.saturating_add(1);
        self.failed = Some(name);
        ReadFault::Failed
    }

    fn fail_write(&mut self) -> WriteFault
        ensures count { self.old.write_faults ≤ self.new.write_faults }
        ensures after { self.new ≡ record self.old {
          write_faults = raised self.old.write_faults;
        } }
    {
        self.write_faults = self.write_faults.saturating_add(1);
        WriteFault
    }

    fn open_and_read(&self, alloc: Global, name: &str, most: usize) -> Result<Vec<u8>, ReadFault> {
        match fs::open(self.rt, name) {
            Ok(mut file) => read_front(alloc, &mut file, most),
            Err(_) => Err(ReadFault::Failed),
        }
    }
}

impl<'a, R: rt::Files> Files for RealFiles<'a, R> {
    ghost seen = { λ f. untold_files (is_some f.file) f.read_faults f.write_faults
        (option_map vec_items f.failed) };

    fn read(&mut self, alloc: Global, name: &str, most: usize) -> Result<Vec<u8>, ReadFault> {
        // The room for the name is taken before the read, so that a failed read can always be recorded.
        let Ok(failing) = Vec::from_slice(alloc, name.as_bytes()) else {
            return Err(ReadFault::Memory);
        };
        match self.open_and_read(alloc, name, most) {
            Err(ReadFault::Failed) => Err(self.fail_read(failing)),
            outcome => outcome,
        }
    }

    fn create(&mut self, name: &str) -> Result<(), WriteFault> {
        self.file = None;
        match fs::create(self.rt, name) {
            Ok(file) => {
                self.file = Some(file);
                Ok(())
            }
            Err(_) => Err(self.fail_write()),
        }
    }

    fn append(&mut self, piece: &[u8]) -> Result<(), WriteFault> {
        let Some(file) = &mut self.file else {
            unreachable!();
        };
        match write_whole(file, piece) {
            Ok(()) => Ok(()),
            Err(_) => Err(self.fail_write()),
        }
    }
}
