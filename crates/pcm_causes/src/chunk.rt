//! The chunks of a RIFF file.

use crate::numbers::four_at;
use std::io::{Read, Seek, SeekFrom};

// How many chunks are looked at, at most.
const CHUNKS: u32 = 4096;

// Where the first chunk stands.
const FIRST_CHUNK: u64 = 12;

// Where the body of a chunk begins, and how many bytes its head states.
#[derive(Clone, Copy)]
pub(crate) struct Chunk {
    pub(crate) body: u64,
    pub(crate) size: u32,
}

// The first chunk of a name.
pub(crate) fn chunk_named<F: Read + Seek>(file: &mut F, name: [u8; 4]) -> Option<Chunk> {
    let mut place = FIRST_CHUNK;
    for _ in 0..CHUNKS {
        let mut head = [0; 8];
        if !fills(file, place, &mut head) {
            return None;
        }
        let body = place.saturating_add(8);
        let size = four_at(&head, 4);
        if head.starts_with(&name) {
            return Some(Chunk { body, size });
        }
        // One byte more follows an odd body.
        place = body.saturating_add(u64::from(size) + u64::from(size) % 2);
    }
    None
}

// Reads the bytes from a place on into a buffer, and says whether there were as many.
pub(crate) fn fills<F: Read + Seek>(file: &mut F, place: u64, buffer: &mut [u8]) -> bool {
    file.seek(SeekFrom::Start(place)).is_ok() && file.read_exact(buffer).is_ok()
}
