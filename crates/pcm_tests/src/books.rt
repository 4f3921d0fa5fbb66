//! What interrupts do to a book, at the rate of the mix and at half of it.
ghost use Rattle.std.specs.Prelude.{◌+◌, ◌<◌, ◌^◌};
ghost use Rattle.pcm_rate.specs.Rates.{IsRatio};

use pcm_desk::{Device, Here, PlayBook, PlayState};
use pcm_rate::{Rate, UNCHANGED};

// A state, frames of four bytes that were eaten, frames of the mix that were given for them, and bytes that wait.
type Stage = (PlayState, u16, u16, u16);

// A book of the usual device's settings whose first run is at a stage, and gave its last frame before the position `last`, after
// `done` bytes that were played.
fn book(stage: Stage, last: u16, done: u16) -> PlayBook
    ensures written { result.done + result.written < 2 ^ 32 }
    ensures given { result.given < 2 ^ 32 }
{
    let (state, eaten, given, waiting) = stage;
    PlayBook {
        state,
        written: 4 * u64::from(eaten) + u64::from(waiting),
        eaten: u64::from(eaten),
        given: u64::from(given),
        done: u64::from(done),
        last: u64::from(last),
        ..PlayBook::begun(Device::usual().settings)
    }
}

const RUNNING: PlayState = PlayState::Running;

const CLOSED: PlayState = PlayState::Draining { closed: true };

const OPEN: PlayState = PlayState::Draining { closed: false };

// A stage, and frames wanted where a hundred were mixed; then the stage, shortages, and the position after the last frame.
type Row = (Stage, u16, Stage, u32, u16);

const AT_THE_RATE: [Row; 10] = [
    (
        (PlayState::Setup, 0, 0, 0),
        4,
        (PlayState::Setup, 0, 0, 0),
        0,
        0,
    ),
    (
        (PlayState::Primed, 0, 0, 4092),
        4,
        (PlayState::Primed, 0, 0, 4092),
        0,
        0,
    ),
    (
        (RUNNING, 0, 0, 4096),
        1024,
        (RUNNING, 1024, 1024, 0),
        0,
        1124,
    ),
    (
        (RUNNING, 1023, 1023, 7),
        2,
        (RUNNING, 1024, 1024, 3),
        1,
        101,
    ),
    ((RUNNING, 1024, 1024, 3), 4, (RUNNING, 1024, 1024, 3), 1, 0),
    (
        (RUNNING, 1024, 1024, 4),
        1,
        (RUNNING, 1025, 1025, 0),
        0,
        101,
    ),
    ((CLOSED, 0, 0, 8), 1, (CLOSED, 1, 1, 4), 0, 101),
    ((CLOSED, 1, 1, 4), 4, (CLOSED, 2, 2, 0), 0, 101),
    ((CLOSED, 1, 1, 7), 1, (CLOSED, 2, 2, 3), 0, 101),
    ((OPEN, 2, 2, 0), 1, (OPEN, 2, 2, 0), 0, 0),
];

// By lines. Of two frames, two outputs are sure, and a drain gives four.
const AT_HALF_THE_RATE: [Row; 10] = [
    ((RUNNING, 0, 0, 4), 1, (RUNNING, 1, 0, 0), 1, 0),
    ((RUNNING, 0, 0, 8), 1, (RUNNING, 2, 1, 0), 0, 101),
    ((RUNNING, 2, 1, 0), 2, (RUNNING, 2, 2, 0), 1, 101),
    ((RUNNING, 2, 2, 0), 1, (RUNNING, 2, 2, 0), 1, 0),
    ((RUNNING, 2, 2, 4), 2, (RUNNING, 3, 4, 0), 0, 102),
    ((RUNNING, 2, 2, 7), 1, (RUNNING, 3, 3, 3), 0, 101),
    ((CLOSED, 2, 2, 0), 1, (CLOSED, 2, 3, 0), 0, 101),
    ((CLOSED, 0, 0, 8), 3, (CLOSED, 2, 3, 0), 0, 103),
    ((CLOSED, 2, 3, 0), 4, (CLOSED, 2, 4, 0), 0, 101),
    ((OPEN, 2, 2, 3), 2, (OPEN, 2, 4, 3), 0, 102),
];

// A stage, the position after its last frame, and how many frames have left the ring; then the stage, and the bytes of a run that
// is over.
type End = (Stage, u16, i16, Stage, u16);

const ENDS: [End; 7] = [
    ((CLOSED, 2, 2, 0), 101, 100, (CLOSED, 2, 2, 0), 0),
    ((CLOSED, 2, 2, 3), 101, 101, (PlayState::Free, 0, 0, 0), 8),
    ((OPEN, 2, 2, 0), 101, 200, (PlayState::Setup, 0, 0, 0), 8),
    ((CLOSED, 1, 1, 4), 101, 101, (CLOSED, 1, 1, 4), 0),
    ((RUNNING, 2, 2, 0), 101, 200, (RUNNING, 2, 2, 0), 0),
    ((CLOSED, 0, 0, 3), 0, -1, (CLOSED, 0, 0, 3), 0),
    ((CLOSED, 0, 0, 3), 0, 0, (PlayState::Free, 0, 0, 0), 0),
];

const HALF: Rate = Rate {
    src: 24000,
    dst: 48000,
    lookahead: 1,
};

// The first row at a rate that has another outcome.
fn first_wrong(rate: Rate, rows: &[Row]) -> Option<usize>
    requires { IsRatio rate }
{
    for (at, (stage, wanted, after, underruns, last)) in rows.iter().enumerate() {
        let got = book(*stage, 0, 0).refilled(rate, 100, u64::from(*wanted));
        let expected = PlayBook {
            underruns: *underruns,
            ..book(*after, *last, 0)
        };
        if got != expected {
            return Some(at);
        }
    }
    None
}

// The first end that has another outcome.
fn first_wrong_end(ends: &[End]) -> Option<usize> {
    for (at, (stage, last, passed, after, done)) in ends.iter().enumerate() {
        let here = Here {
            mixed: 100,
            passed: i64::from(*passed),
        };
        let got = book(*stage, *last, 0).settled(UNCHANGED, here);
        if got != book(*after, *last, *done) {
            return Some(at);
        }
    }
    None
}

#[test]
fn interrupts(rt: HostRuntime) {
    assert_eq!(rt; first_wrong(UNCHANGED, &AT_THE_RATE), None);
}

#[test]
fn interrupts_at_half_the_rate(rt: HostRuntime) {
    assert_eq!(rt; first_wrong(HALF, &AT_HALF_THE_RATE), None);
}

#[test]
fn ends(rt: HostRuntime) {
    assert_eq!(rt; first_wrong_end(&ENDS), None);
}
