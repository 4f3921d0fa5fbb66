//! Files that are read again.

use pcm_outside::read_front;
use std::alloc::Global;
use std::{fs, rt};

/// Opens a file of the system, and returns it with its length. What is no regular file could wait for bytes that never come, so
/// it isn't opened again.
pub(crate) fn reopened<R: rt::Files>(rt: &R, name: &str) -> Option<(R::File, u64)> {
    let seen = fs::metadata(rt, name).ok()?;
    if !seen.is_file() {
        return None;
    }
    let file = fs::open(rt, name).ok()?;
    Some((file, seen.len()))
}

/// All bytes of a file.
pub(crate) fn content<R: rt::Files>(rt: &R, alloc: Global, name: &str) -> Option<Vec<u8>> {
    let (mut file, size) = reopened(rt, name)?;
    read_front(alloc, &mut file, size as usize).ok()
}
