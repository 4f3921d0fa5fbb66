//! A ring, once there is memory for it.

use pcm_ring::ByteRing;
use std::test::Fail;

// What is put into a ring of four bytes, how many bytes of it are accepted, and the bytes that are then taken, three at most.
type Turn = (&'static [u8], usize, &'static [u8]);

const TURNS: [Turn; 5] = [
    (b"", 0, b""),
    (b"ab", 2, b"ab"),
    // Round the end of the ring, and more than there is room for.
    (b"cdefg", 4, b"cde"),
    (b"hijk", 3, b"fhi"),
    (b"", 0, b"j"),
];

// The first turn that a new ring takes otherwise.
fn first_wrong(ring: &mut ByteRing) -> Option<usize> {
    for (at, (bytes, accepted, taken)) in TURNS.iter().enumerate() {
        let mut out = [0; 3];
        let is_accepted = ring.put(bytes) == *accepted;
        let count = ring.take(&mut out);
        if !is_accepted || out.get(..count) != Some(*taken) {
            return Some(at);
        }
    }
    None
}

#[test]
fn a_ring_of_four_bytes(rt: HostRuntime) -> Result<(), Fail> {
    let mut ring = ByteRing::new(rt.alloc(), 4)?;
    assert_eq!(rt; first_wrong(&mut ring), None);
    Ok(())
}
