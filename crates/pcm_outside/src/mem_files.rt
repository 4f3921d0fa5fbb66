//! A folder in memory whose listed calls fail.
ghost use Rattle.std.specs.Prelude.{◌≡◌, ◌≢◌, take, IsTrue, IsErrOf, IfOk, OnOk, OnErr, Err, Some, None, is_err, option_copied};
ghost use Rattle.pcm_outside.specs.Results.{DoesAppend, DoesCreate, DoesRead, IsDoneOrNot};
ghost use Rattle.pcm_outside.specs.Counts.{raised};
ghost use Rattle.pcm_outside.specs.Folder.{empty_folder, with_added, with_listed_call, bytes_named, is_created, content_of, folder_seen, read_of, after_call, after_failed_read, is_other_created, create_fails, after_create, after_failed_create, append_fails, after_append, after_failed_append};

use crate::calls::CallList;
use crate::outside::{Files, ReadFault, WriteFault};
use crate::room::Room;
use std::alloc::{AllocError, Global};
use std::marker::Model;

/// A name and its content.
#[derive(Drop)]
struct Held {
    name: Vec<u8>,
    bytes: Vec<u8>,
}

impl Model for Held {
    ghost use Rattle.pcm_outside.specs.Folder.{Named};

    ghost Value = { Named };

    ghost view = { λ h. record { name = h.name.items; bytes = h.bytes.items } };
}

fn bytes_named<'a>(added: &'a [Held], name: &[u8]) -> Option<&'a [u8]>
    ensures { option_copied result ≡ bytes_named added.now name.now }
{
    for held in added {
        if held.name.as_slice() == name {
            return Some(held.bytes.as_slice());
        }
    }
    None
}

fn first_bytes(alloc: Global, bytes: &[u8], most: usize) -> Result<Vec<u8>, ReadFault>
    ensures ok { IfOk result (λ v. v.items ≡ take most bytes.now) }
    ensures err { OnErr result (IsErrOf result ReadFault.Memory) }
{
    let front = &bytes[..most.min(bytes.len())];
    Vec::from_slice(alloc, front).map_err(|_| ReadFault::Memory)
}

/// A folder in memory. The calls that are listed fail, and all that is written fits the room it was made with, which
/// can't grow.
#[derive(Drop)]
pub struct MemFiles {
    room: usize,
    added: Vec<Held>,
    name: Room,
    is_made: bool,
    written: Room,
    stands: bool,
    calls: CallList,
    read_faults: u64,
    write_faults: u64,
    failed: Option<Vec<u8>>,
}

impl Model for MemFiles {
    ghost use Rattle.std.specs.Prelude.{◌≡◌, Some, None, vec_items, option_map, if◌then◌else◌};
    ghost use Rattle.pcm_outside.specs.Folder.{Folder};

    ghost Value = { Folder };

    ghost view = { λ f. record {
      room = f.room;
      added = f.added.items;
      created = if f.is_made then Some f.name.bytes else None;
      written = f.written.bytes;
      stands = f.stands;
      calls = f.calls;
      read_faults = f.read_faults;
      write_faults = f.write_faults;
      failed = option_map vec_items f.failed;
    } };

    ghost invariant = { λ f. (f.name.room ≡ f.room) × (f.written.room ≡ f.room) };
}

impl MemFiles {
    /// Makes an empty folder, and takes the memory for one created name and its content, `room` bytes each.
    pub fn new(alloc: Global, room: usize) -> Result<MemFiles, AllocError>
        ensures { IfOk result (λ files. files ≡ empty_folder room) }
    {
        let name = Room::new(alloc, room)?;
        let written = Room::new(alloc, room)?;
        Ok(MemFiles {
            room,
            added: Vec::new(alloc),
            name,
            is_made: false,
            written,
            stands: false,
            calls: CallList::new(alloc),
            read_faults: 0,
            write_faults: 0,
            failed: None,
        })
    }

    /// Makes the bytes the content of a name.
    pub fn add(&mut self, name: &str, bytes: &[u8]) -> Result<(), AllocError>
        requires { self.old.created ≡ None }
        ensures { IsDoneOrNot self.old self.new (with_added self.old name.now bytes.now) result }
    {
        let alloc = *self.added.allocator();
        let name = Vec::from_slice(alloc, name.as_bytes())?;
        let bytes = Vec::from_slice(alloc, bytes)?;
        self.added.insert(0, Held { name, bytes })?;
        Ok(())
    }

    /// Makes the call of this number fail. The first read, create or append has number 1.
    pub fn fail_at(&mut self, call: u32) -> Result<(), AllocError>
        ensures { IsDoneOrNot self.old self.new (with_listed_call self.old call) result }
    {
        self.calls.fail_at(call)
    }

    /// The content of a name. It isn't counted among the calls.
    pub fn content(&self, name: &str) -> Option<&[u8]>
        ensures { option_copied result ≡ content_of self.now name.now }
    {
        if self.is_created(name) {
            Some(self.written.as_slice())
        } else {
            bytes_named(&self.added, name.as_bytes())
        }
    }

    fn is_created(&self, name: &str) -> bool
        ensures { result ≡ is_created self.now name.now }
    {
        self.is_made && self.name.as_slice() == name.as_bytes()
    }

    fn is_other_created(&self, name: &str) -> bool
        ensures { result ≡ is_other_created self.now name.now }
    {
        self.is_made && self.name.as_slice() != name.as_bytes()
    }

    fn fail_read(&mut self, name: Vec<u8>) -> ReadFault
        ensures fault { result ≡ ReadFault.Failed }
        ensures after { self.new ≡ record self.old {
          read_faults = raised self.old.read_faults;
          failed = Some name.items;
        } }
    {
        self.read_faults = self.read_faults.saturating_add(1);
        self.failed = Some(name);
        ReadFault::Failed
    }

    fn fail_write(&mut self) -> WriteFault
        ensures { self.new ≡ record self.old { write_faults = raised self.old.write_faults } }
    {
        self.write_faults = self.write_faults.saturating_add(1);
        WriteFault
    }
}

impl Files for MemFiles {
    ghost seen = { folder_seen };

    fn read(&mut self, alloc: Global, name: &str, most: usize) -> Result<Vec<u8>, ReadFault>
        ensures does { DoesRead (folder_seen self.old) (folder_seen self.new) name.now most result }

        // It fails exactly at a listed call, and where the name isn't there.
        ensures gives { IfOk result (λ v. read_of self.old name.now most ≡ Some v.items) }
        ensures gives_none { IsErrOf result ReadFault.Failed
            → read_of self.old name.now most ≡ None }
        ensures after { result ≢ Err ReadFault.Failed → self.new ≡ after_call self.old }
        ensures after_failed { IsErrOf result ReadFault.Failed
            → self.new ≡ after_failed_read self.old name.now }
    {
        let is_listed = self.calls.count();
        // The room for the name is taken before the read, so that a failed read can always be recorded.
        let Ok(failing) = Vec::from_slice(alloc, name.as_bytes()) else {
            return Err(ReadFault::Memory);
        };
        match self.content(name) {
            Some(bytes) if !is_listed => first_bytes(alloc, bytes, most),
            _ => Err(self.fail_read(failing)),
        }
    }

    fn create(&mut self, name: &str) -> Result<(), WriteFault>
        ensures does { DoesCreate (folder_seen self.old) (folder_seen self.new) name.now result }

        // It fails exactly at a listed call, at a name longer than the room, and after a different name.
        ensures fails { is_err result ≡ create_fails self.old name.now }
        ensures after { OnOk result (self.new ≡ after_create self.old name.now) }
        ensures after_failed { OnErr result (self.new ≡ after_failed_create self.old) }
    {
        if self.calls.count() || name.len() > self.room || self.is_other_created(name) {
            self.stands = false;
            return Err(self.fail_write());
        }
        self.name.clear();
        self.name.put(name.as_bytes());
        self.written.clear();
        self.is_made = true;
        self.stands = true;
        Ok(())
    }

    fn append(&mut self, piece: &[u8]) -> Result<(), WriteFault>
        requires { IsTrue self.old.stands }
        ensures does { DoesAppend (folder_seen self.old) (folder_seen self.new) piece.now result }

        // It fails exactly at a listed call, and where more than the room would be written.
        ensures fails { is_err result ≡ append_fails self.old piece.now }
        ensures after { OnOk result (self.new ≡ after_append self.old piece.now) }
        ensures after_failed { OnErr result (self.new ≡ after_failed_append self.old) }
    {
        if self.calls.count() || self.written.lacks(piece.len()) {
            return Err(self.fail_write());
        }
        self.written.put(piece);
        Ok(())
    }
}
