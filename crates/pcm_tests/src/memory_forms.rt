//! The forms in memory, with calls that fail.
ghost use Rattle.std.specs.Prelude.{IfOk, IsNone};

use pcm_outside::{Files, MemFiles, MemSink, Sink};
use std::alloc::{AllocError, Global};
use std::test::Fail;

// A folder with one file, whose listed call fails; 0 lists none.
fn folder(alloc: Global, room: usize, listed: u32) -> Result<MemFiles, AllocError>
    ensures { IfOk result (λ files. IsNone files.created) }
{
    let mut files = MemFiles::new(alloc, room)?;
    files.add("in", b"abc")?;
    files.add("in", b"abcdef")?;
    files.fail_at(listed)?;
    Ok(files)
}

// Which of three calls succeed: a create and two appends.
fn three_writes(files: &mut MemFiles) -> [bool; 3] {
    if files.create("out").is_err() {
        return [false; 3];
    }
    [
        true,
        files.append(b"xy").is_ok(),
        files.append(b"z").is_ok(),
    ]
}

// Which of six calls succeed: a read, those three, a read of the file that was written, and a create of another.
fn six_calls(alloc: Global, files: &mut MemFiles) -> [bool; 6] {
    let read = files.read(alloc, "in", 4).is_ok();
    let [made, first, second] = three_writes(files);
    let read_back = files.read(alloc, "out", 9).is_ok();
    let other = files.create("another").is_ok();
    [read, made, first, second, read_back, other]
}

// The room, the call that is listed, which calls succeed, and what was written.
const ROWS: [(usize, u32, [bool; 6], Option<&[u8]>); 9] = [
    (7, 0, [true, true, true, true, true, false], Some(b"xyz")),
    (7, 1, [false, true, true, true, true, false], Some(b"xyz")),
    // Where the first name wasn't created, another one is.
    (7, 2, [true, false, false, false, false, true], None),
    (7, 3, [true, true, false, true, true, false], Some(b"z")),
    (7, 4, [true, true, true, false, true, false], Some(b"xy")),
    (7, 5, [true, true, true, true, false, false], Some(b"xyz")),
    // No room for three bytes, and none for a name of three.
    (3, 3, [true, true, false, true, true, false], Some(b"z")),
    (2, 0, [true, false, false, false, false, false], None),
    (7, 7, [true, true, true, true, true, false], Some(b"xyz")),
];

// Whether a folder does what a row says, and keeps what was added to it.
fn is_right(
    alloc: Global,
    row: &(usize, u32, [bool; 6], Option<&[u8]>),
) -> Result<bool, AllocError> {
    let (room, listed, succeed, written) = row;
    let mut files = folder(alloc, *room, *listed)?;
    let found = six_calls(alloc, &mut files);
    Ok(
        found == *succeed
            && files.content("out") == *written
            && files.content("in") == Some(b"abcdef".as_slice()),
    )
}

// The first row that a folder does otherwise.
fn first_wrong_row(alloc: Global) -> Result<Option<usize>, AllocError> {
    for (at, row) in ROWS.iter().enumerate() {
        if !is_right(alloc, row)? {
            return Ok(Some(at));
        }
    }
    Ok(None)
}

#[test]
fn a_listed_call_fails_alone(rt: HostRuntime) -> Result<(), Fail> {
    assert_eq!(rt; first_wrong_row(rt.alloc())?, None);
    Ok(())
}

// What is put one after another into a sink of 4 bytes whose third put is listed, and what it then has.
const PUTS: [(&[u8], bool, &[u8]); 6] = [
    (b"abc", true, b"abc"),
    (b"de", false, b"abc"),
    (b"d", false, b"abc"),
    (b"d", true, b"abcd"),
    (b"", true, b"abcd"),
    (b"e", false, b"abcd"),
];

// The first put with another outcome.
fn first_wrong_put(sink: &mut MemSink) -> Option<usize> {
    for (at, row) in PUTS.iter().enumerate() {
        let (piece, succeeds, bytes) = *row;
        let is_put = sink.put(piece).is_ok();
        if is_put != succeeds || sink.bytes() != bytes {
            return Some(at);
        }
    }
    None
}

#[test]
fn what_passes_the_room_is_refused_whole(rt: HostRuntime) -> Result<(), Fail> {
    let mut sink = MemSink::new(rt.alloc(), 4)?;
    sink.fail_at(3)?;
    assert_eq!(rt; first_wrong_put(&mut sink), None);
    Ok(())
}
