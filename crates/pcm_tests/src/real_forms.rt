//! The files of the system and standard output.

use pcm_outside::{Files, ReadFault, RealFiles, RealSink, Sink};
use std::alloc::Global;
use std::test::Fail;
use std::{env, fs, process, rt};

// Whether a file that isn't there fails to be read, and is there once it was written.
fn is_written<R: rt::Files>(alloc: Global, files: &mut RealFiles<R>, name: &str) -> bool {
    let is_none = files.read(alloc, name, 9) == Err(ReadFault::Failed);
    let Ok(()) = files.create(name) else {
        return false;
    };
    is_none && files.append(b"abc").is_ok() && files.append(b"def").is_ok()
}

// Whether the bytes at the front of a file, at most `most`, are these.
fn reads<R: rt::Files>(
    alloc: Global,
    files: &mut RealFiles<R>,
    name: &str,
    most: usize,
    wanted: &[u8],
) -> bool {
    files
        .read(alloc, name, most)
        .is_ok_and(|bytes| bytes.as_slice() == wanted)
}

#[test]
fn a_file_is_written_and_read(rt: HostRuntime) -> Result<(), Fail> {
    let alloc = rt.alloc();
    let folder = env::temp_dir(&rt)?;
    let own = process::id(rt.process());
    let name = format!(in alloc; "{}/pcm_outside.{own}", folder.as_path().as_str())?;
    let mut files = RealFiles::new(&rt);
    let is_right = is_written(alloc, &mut files, name.as_str())
        && reads(alloc, &mut files, name.as_str(), 4, b"abcd")
        && reads(alloc, &mut files, name.as_str(), 9, b"abcdef");
    fs::remove_file(&rt, name.as_str())?;
    assert!(rt; is_right);
    // A folder is no file.
    assert!(rt; files.create(folder.as_path().as_str()).is_err());
    assert_eq!(rt; files.write_faults(), 1);
    Ok(())
}

#[test]
fn a_line_is_put(rt: HostRuntime) {
    let mut sink = RealSink::new(&rt);
    assert!(rt; sink.put(b"a line\n").is_ok());
}
