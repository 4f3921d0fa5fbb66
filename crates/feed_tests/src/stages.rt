//! Each kind of stage, by one table, which is tried here with boxes.

ghost use Rattle.std.specs.Prelude.{◌≡◌, true, length, All};
ghost use Rattle.pcm_feeder.specs.Kinds.{kind_of};
ghost use Rattle.pcm_feeder.specs.Limits.{AreChannels, HasTable, IsChange, IsCoef, IsSection, IsSpec, IsTable};
ghost use Rattle.pcm_feeder.specs.Stages.{channels_in, channels_out};

use crate::racks::boxed;
use pcm_feeder::{Coefs, Feeder, Gain, Kind, Pull, Section, Spec, Table, Tables};
use pcm_format::{Layout, RATE_LEAST, RATE_MOST};
use std::alloc::{AllocError, Global};
use std::test::Fail;

/// What a stage is fitted to, how many frames are wanted, the samples in, how many frames of them are eaten and how many
/// are given, and the samples out.
pub type Row = (Spec, usize, &'static [i32], (usize, usize), &'static [i32]);

const SIX_TO_TWO: Spec = Spec::Matrix {
    from: Layout::Six,
    to: Layout::Two,
};

const ONE_TO_TWO: Spec = Spec::Matrix {
    from: Layout::One,
    to: Layout::Two,
};

const TWO_TO_ONE: Spec = Spec::Matrix {
    from: Layout::Two,
    to: Layout::One,
};

const HOLD: Spec = Spec::Hold {
    src: 24000,
    dst: 48000,
    channels: 1,
};

const HOLD_STEREO: Spec = Spec::Hold {
    src: 24000,
    dst: 48000,
    channels: 2,
};

const HOLD_44100: Spec = Spec::Hold {
    src: 44100,
    dst: 48000,
    channels: 1,
};

const HOLD_A_TWELFTH: Spec = Spec::Hold {
    src: 96000,
    dst: 8000,
    channels: 1,
};

const HOLD_NINE_TIMES: Spec = Spec::Hold {
    src: 8000,
    dst: 72000,
    channels: 1,
};

const LINE: Spec = Spec::Linear {
    src: 24000,
    dst: 48000,
    channels: 1,
};

const LINE_THIRDS: Spec = Spec::Linear {
    src: 16000,
    dst: 48000,
    channels: 2,
};

const LINE_44100: Spec = Spec::Linear {
    src: 44100,
    dst: 48000,
    channels: 2,
};

const LINE_A_TWELFTH: Spec = Spec::Linear {
    src: 96000,
    dst: 8000,
    channels: 1,
};

const FILTER: Spec = Spec::Poly {
    src: 24000,
    dst: 48000,
    channels: 1,
    table: 0,
    taps: 2,
};

const FILTER_STEREO: Spec = Spec::Poly {
    src: 24000,
    dst: 48000,
    channels: 2,
    table: 0,
    taps: 2,
};

const VOLUME: Spec = Spec::Volume {
    layout: Layout::Two,
};

const VOLUME_OF_ONE: Spec = Spec::Volume {
    layout: Layout::One,
};

const VOLUME_OF_FOUR: Spec = Spec::Volume {
    layout: Layout::Four,
};

const VOLUME_OF_SIX: Spec = Spec::Volume {
    layout: Layout::Six,
};

const VOLUME_OF_EIGHT: Spec = Spec::Volume {
    layout: Layout::Eight,
};

const DEPTH: Spec = Spec::Depth {
    bits: 16,
    channels: 2,
};

const EQ: Spec = Spec::Eq {
    channels: 1,
    sections: 1,
};

const EQ_STEREO: Spec = Spec::Eq {
    channels: 2,
    sections: 1,
};

const EQ_OF_THREE: Spec = Spec::Eq {
    channels: 3,
    sections: 1,
};

// The gain of all rows, of which the volume alone makes use: one on the left side, and a half on the right one.
const GAIN: Gain = Gain {
    left: 65536,
    right: 32768,
};

/// Rows of each kind of stage, by hand.
pub const ROWS: [Row; 34] = [
    (SIX_TO_TWO, 5, &[], (0, 0), &[]),
    (ONE_TO_TWO, 5, &[5, -7], (2, 2), &[5, 5, -7, -7]),
    // A half is rounded down, also below zero.
    (TWO_TO_ONE, 5, &[3, 4, -3, 0], (2, 2), &[3, -2]),
    (
        SIX_TO_TWO,
        2,
        &[
            100, 200, -1, 77, 65536, -65536, 0, 0, 65536, 77, 0, 0, 1, 1, 1, 1, 1, 1,
        ],
        (2, 2),
        &[46440, -46142, 46341, 46341],
    ),
    // A limit before the sum would give other samples.
    (
        SIX_TO_TWO,
        1,
        &[0x7fff_ffff, i32::MIN, 0x7fff_ffff, 0, i32::MIN, i32::MIN],
        (1, 1),
        &[0x7fff_fffe, i32::MIN],
    ),
    (HOLD, 16, &[7, -8], (2, 4), &[7, 7, -8, -8]),
    (
        HOLD_STEREO,
        4,
        &[1, 2, 3, 4],
        (2, 4),
        &[1, 2, 1, 2, 3, 4, 3, 4],
    ),
    // The frame under output j is j * 147 / 160, from 0 0 1 on; output 13 lies at 11 and 151 parts, output 14 at 12.
    (
        HOLD_44100,
        16,
        &[1, 2, 3, 4, 5, 6, 7, 8, 9, 10, 11, 12],
        (12, 14),
        &[1, 1, 2, 3, 4, 5, 6, 7, 8, 9, 10, 11, 12, 12],
    ),
    // It is j * 12: three of 25 frames, and all are eaten.
    (
        HOLD_A_TWELFTH,
        16,
        &[
            1, 0, 0, 0, 0, 0, 0, 0, 0, 0, 0, 0, 2, 0, 0, 0, 0, 0, 0, 0, 0, 0, 0, 0, 3,
        ],
        (25, 3),
        &[1, 2, 3],
    ),
    // Nine outputs for a frame; what is wanted ends within those of the second.
    (
        HOLD_NINE_TIMES,
        16,
        &[5, 6, 7],
        (2, 16),
        &[5, 5, 5, 5, 5, 5, 5, 5, 5, 6, 6, 6, 6, 6, 6, 6],
    ),
    (HOLD_44100, 16, &[], (0, 0), &[]),
    // Half way from 0 to 100. What comes after 100 has not come.
    (LINE, 16, &[0, 100], (2, 2), &[0, 50]),
    (LINE, 16, &[0, 100, 0], (3, 4), &[0, 50, 100, 50]),
    // Halves round down: -1/2, then 1/2, then -1/2.
    (LINE, 16, &[0, -1, 2, -3], (4, 6), &[0, -1, -1, 0, 2, -1]),
    // Half way between the ends of the range.
    (
        LINE,
        16,
        &[0x7fff_ffff, i32::MIN, 0x7fff_ffff],
        (3, 4),
        &[0x7fff_ffff, -1, i32::MIN, -1],
    ),
    // Thirds of 10 and of -10, on two channels.
    (
        LINE_THIRDS,
        8,
        &[0, 0, 10, -10, 0, 0],
        (3, 6),
        &[0, 0, 3, -4, 6, -7, 10, -10, 6, -7, 3, -4],
    ),
    // A line that rises by 160 in a frame rises by 147 in an output; one that falls likewise.
    (
        LINE_44100,
        8,
        &[0, 0, 160, -160, 320, -320, 480, -480, 640, -640],
        (5, 5),
        &[0, 0, 147, -147, 294, -294, 441, -441, 588, -588],
    ),
    // Each twelfth frame, as soon as the one after it came.
    (
        LINE_A_TWELFTH,
        16,
        &[
            1, 50, 0, 0, 0, 0, 0, 0, 0, 0, 0, 0, 2, 60, 0, 0, 0, 0, 0, 0, 0, 0, 0, 0, -3, 70,
        ],
        (26, 3),
        &[1, 2, -3],
    ),
    // Halves round up: -1/2, then 1/2, then -1/2.
    (FILTER, 16, &[0, -1, 2, -3], (4, 6), &[0, 0, -1, 1, 2, 0]),
    (
        FILTER_STEREO,
        8,
        &[0, 10, 100, -10, 0, 0],
        (3, 4),
        &[0, 10, 50, 0, 100, -10, 50, -5],
    ),
    (FILTER, 16, &[], (0, 0), &[]),
    (
        VOLUME,
        4,
        &[0x7fff_ffff, i32::MIN, 1, -1],
        (2, 2),
        &[0x7fff_ffff, -0x4000_0000, 1, -1],
    ),
    // What is on no side has the mean of both gains.
    (VOLUME_OF_ONE, 2, &[7, -7, 1], (2, 2), &[5, -6]),
    (VOLUME_OF_FOUR, 4, &[8, 8, -5, -5], (1, 1), &[8, 4, -5, -3]),
    (
        VOLUME_OF_SIX,
        2,
        &[4, 4, 4, -5, 4, 4],
        (1, 1),
        &[4, 2, 3, -4, 4, 2],
    ),
    (
        VOLUME_OF_EIGHT,
        2,
        &[1, 2, 3, 4, 5, 6, 7, 8],
        (1, 1),
        &[1, 1, 2, 3, 5, 3, 7, 4],
    ),
    (VOLUME, 4, &[], (0, 0), &[]),
    (DEPTH, 4, &[0x7fff_ffff, -1], (1, 1), &[0x7fff, -1]),
    (
        DEPTH,
        2,
        &[0x0001_ffff, -0x0001_0001, i32::MIN, 0xffff, 1, 1],
        (2, 2),
        &[1, -2, -0x8000, 0],
    ),
    // Each output is the sum of all inputs so far, channel by channel.
    (EQ, 16, &[1, 2, 3], (3, 3), &[1, 3, 6]),
    (EQ, 2, &[1, 2, 3], (2, 2), &[1, 3]),
    (EQ_STEREO, 8, &[1, -10, 2, -20], (2, 2), &[1, -10, 3, -30]),
    (
        EQ_OF_THREE,
        5,
        &[1, 2, 3, 4, 5, 6],
        (2, 2),
        &[1, 2, 3, 5, 7, 9],
    ),
    // A sum past the end of the range stops there, and goes on from there.
    (
        EQ,
        16,
        &[0x7fff_ffff, 1, -1],
        (3, 3),
        &[0x7fff_ffff, 0x7fff_ffff, 0x7fff_fffe],
    ),
];

// A filter of two phases of two taps, for any two rates.
fn filter(numbers: Vec<i32>) -> Table
    requires count { length numbers.items ≡ 4 }
    requires range { All IsCoef numbers.items }
    ensures { IsTable result }
{
    Table {
        src: 0,
        dst: 0,
        phases: 2,
        taps: 2,
        shift: 1,
        coefs: Coefs::new(numbers),
    }
}

// A section that adds up.
fn section() -> Section
    ensures { IsSection result }
{
    Section {
        shift: 1,
        b0: 2,
        b1: 0,
        b2: 0,
        a1: -2,
        a2: 0,
    }
}

/// One filter: frames, and points half way between two. And one section.
pub fn tables(alloc: Global) -> Result<Tables, AllocError> {
    let mut list = Vec::new(alloc);
    list.push(filter(Vec::from_slice(alloc, &[2, 0, 1, 1])?))?;
    let mut sections = Vec::new(alloc);
    sections.push(section())?;
    Ok(Tables::new(list, sections))
}

// The kind of stage that a spec is for.
fn kind_of(spec: Spec) -> Kind
    ensures { result ≡ kind_of spec }
{
    match spec {
        Spec::Matrix { .. } => Kind::Matrix,
        Spec::Hold { .. } => Kind::Hold,
        Spec::Linear { .. } => Kind::Linear,
        Spec::Poly { .. } => Kind::Poly,
        Spec::Volume { .. } => Kind::Volume,
        Spec::Depth { .. } => Kind::Depth,
        Spec::Eq { .. } => Kind::Eq,
    }
}

// The channels that a stage takes.
fn channels_in(spec: Spec) -> usize
    ensures { result ≡ channels_in spec }
{
    match spec {
        Spec::Matrix { from, .. } => from.channels(),
        Spec::Hold { channels, .. } => channels,
        Spec::Linear { channels, .. } => channels,
        Spec::Poly { channels, .. } => channels,
        Spec::Volume { layout } => layout.channels(),
        Spec::Depth { channels, .. } => channels,
        Spec::Eq { channels, .. } => channels,
    }
}

// The channels that a stage gives.
fn channels_out(spec: Spec) -> usize
    ensures { result ≡ channels_out spec }
{
    match spec {
        Spec::Matrix { to, .. } => to.channels(),
        _ => channels_in(spec),
    }
}

// Whether channels are as many as a layout may have.
fn are_channels(channels: usize) -> bool
    ensures { result ≡ true → AreChannels channels }
{
    1 <= channels && channels <= 8
}

// Whether a change of rate is within the limits.
fn is_change(src: u32, dst: u32, channels: usize) -> bool
    ensures { result ≡ true → IsChange src dst channels }
{
    RATE_LEAST <= src.min(dst) && src.max(dst) <= RATE_MOST && are_channels(channels)
}

// Whether a stage may be fitted to a spec.
fn is_spec(spec: Spec) -> bool
    ensures { result ≡ true → IsSpec spec }
{
    match spec {
        Spec::Hold { src, dst, channels } => is_change(src, dst, channels),
        Spec::Linear { src, dst, channels } => is_change(src, dst, channels),
        Spec::Poly {
            src,
            dst,
            channels,
            taps,
            ..
        } => is_change(src, dst, channels) && taps == 2,
        Spec::Depth { bits, channels } => bits == 16 && are_channels(channels),
        Spec::Eq { channels, sections } => are_channels(channels) && sections == 1,
        _ => true,
    }
}

/// Whether the filter or the sections of a spec are there.
pub fn has_table(spec: Spec, tables: &Tables) -> bool
    ensures { result ≡ true → HasTable spec tables.now }
{
    match spec {
        Spec::Poly { table, taps, .. } => {
            let list = tables.list();
            table < list.len() && list[table].taps == taps
        }
        Spec::Eq { sections, .. } => tables.sections().len() == sections,
        _ => true,
    }
}

/// Whether a feeder that is fitted to a row's spec moves what the row says.
pub fn is_right<B: Feeder>(feeder: &mut B, tables: &Tables, row: &Row) -> bool {
    let (spec, want, input, moved, samples) = row;
    let channels = channels_in(*spec);
    if feeder.kind() != kind_of(*spec)
        || !is_spec(*spec)
        || !has_table(*spec, tables)
        || channels == 0
        || input.len() % channels != 0
        || want.saturating_mul(channels_out(*spec)) > 16
    {
        return false;
    }
    let mut output = [99; 16];
    feeder.fit(*spec);
    let pull = Pull {
        gain: GAIN,
        want: *want,
    };
    let found = feeder.feed(tables, pull, input, &mut output);
    (found.eaten, found.given) == *moved && begins_with(&output, samples)
}

// Whether an output that held 99 begins with these samples, and the rest of it stayed.
fn begins_with(output: &[i32; 16], samples: &[i32]) -> bool {
    match output.strip_prefix(samples) {
        Some(rest) => rest.iter().all(|sample| *sample == 99),
        None => false,
    }
}

// The first row that a box of its kind moves otherwise.
fn first_wrong(alloc: Global) -> Result<Option<usize>, AllocError> {
    let tables = tables(alloc)?;
    for (at, row) in ROWS.iter().enumerate() {
        let mut stage = boxed(alloc, kind_of(row.0))?;
        if !is_right(&mut stage, &tables, row) {
            return Ok(Some(at));
        }
    }
    Ok(None)
}

#[test]
fn boxed_stages(rt: HostRuntime) -> Result<(), Fail> {
    assert_eq!(rt; first_wrong(rt.alloc())?, None);
    Ok(())
}
