//! Bytes that a reader or a writer moves in portions, with a fault in the middle.

use pcm_outside::{WriteFault, read_front, write_whole};
use std::io::{self, ErrorKind, Read};

// Gives one byte at a time, and then fails.
#[derive(Drop)]
struct Broken {
    left: u32,
}

impl Read for Broken {
    fn read(&mut self, buf: &mut [u8]) -> io::Result<usize> {
        if self.left == 0 || buf.is_empty() {
            return Err(io::Error::from(ErrorKind::BrokenPipe));
        }
        self.left -= 1;
        buf[0] = 7;
        Ok(1)
    }
}

#[test]
fn a_fault_ends_a_read(rt: HostRuntime) {
    let mut broken = Broken { left: 3 };
    let front = read_front(rt.alloc(), &mut broken, 2);
    assert!(rt; front.is_ok_and(|bytes| bytes.as_slice() == [7, 7].as_slice()));
    assert!(rt; read_front(rt.alloc(), &mut broken, 2).is_err());
}

#[test]
fn a_full_writer_ends_a_write(rt: HostRuntime) {
    let mut held = [0; 3];
    let mut full = held.as_mut_slice();
    assert!(rt; write_whole(&mut full, b"ab").is_ok());
    assert!(rt; write_whole(&mut full, b"cd") == Err(WriteFault));
    assert_eq!(rt; held.as_slice(), b"abc".as_slice());
}
