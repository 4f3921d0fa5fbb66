//! Calls over the forms that only count.

use crate::boxes::boxes;
use crate::calls::owned;
use pcm_feeder::Racks;
use pcm_outside::{TallyFiles, TallySink};
use pcm_replay::tally_main;
use std::alloc::{AllocError, Global};
use std::test::Fail;

// The words, and the outcome: the status, the bytes that were appended, and those that were put.
type Row = (&'static [&'static str], (u8, u64, u64));

// All files are empty: a script has no events, a configuration no keys, and no wave is one.
const ROWS: [Row; 5] = [
    (&[], (2, 0, 114)),
    (&["soak", "7"], (0, 0, 97)),
    (&["run", "s", "o", "c"], (0, 0, 0)),
    (&["check", "s"], (0, 0, 18)),
    (&["convert", "w", "o", "48000", "s16le", "2"], (6, 0, 33)),
];

// The outcome of a call with these words.
fn told(alloc: Global, words: &[&str]) -> Result<Option<(u8, u64, u64)>, AllocError> {
    let Ok(racks) = Racks::of_boxes(alloc, boxes(alloc)?) else {
        return Ok(None);
    };
    let words = owned(alloc, words)?;
    let mut files = TallyFiles::new();
    let mut out = TallySink::new();
    let mut ran = None;
    let status = tally_main(alloc, &words, &mut files, &mut out, racks, &mut ran);
    Ok(Some((status, files.total(), out.total())))
}

// The first row with another outcome.
fn first_wrong(alloc: Global) -> Result<Option<usize>, AllocError> {
    for (at, (words, expected)) in ROWS.iter().enumerate() {
        if told(alloc, words)? != Some(*expected) {
            return Ok(Some(at));
        }
    }
    Ok(None)
}

#[test]
fn calls_are_counted(rt: HostRuntime) -> Result<(), Fail> {
    assert_eq!(rt; first_wrong(rt.alloc())?, None);
    Ok(())
}
