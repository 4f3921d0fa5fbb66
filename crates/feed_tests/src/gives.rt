//! A chain of boxes, and what it gives in pieces.

ghost use Rattle.std.specs.Prelude.{◌≡◌, ◌≤◌, ◌+◌, List, [], IsTrue, length};
ghost use Rattle.pcm_format.specs.declared.layout.Layout.TheVariants.{One};
ghost use Rattle.pcm_format.specs.Frames.{Frame};
ghost use Rattle.pcm_feeder.specs.Limits.{IsRate};
ghost use Rattle.pcm_plan.specs.Fits.{HaveTables};
ghost use Rattle.pcm_chain.specs.Chains.{plan_in};
ghost use Rattle.pcm_chain.specs.Gives.{GivesExactly};

use crate::racks::seven;
use pcm_chain::ChainOf;
use pcm_feeder::{Feeder, Kind, RackOf, SevenOf, Tables};
use pcm_format::{Format, Layout, RATE_LEAST, RATE_MOST, Settings};
use pcm_plan::{Plan, plan_record};
use std::alloc::{AllocError, Global};
use std::test::Fail;

// A format and a rate, with one channel.
type End = (Format, u32);

// What goes in and comes out, how many frames are given each time, how many of the input that eats, and the frames out.
struct Row {
    source: End,
    target: End,
    counts: [u8; 4],
    eaten: [u8; 4],
    frames: [i32; 4],
}

// 0, 100 .. 700 at 16 bits.
const INPUT: [i32; 8] = [
    0, 6553600, 13107200, 19660800, 26214400, 32768000, 39321600, 45875200,
];

const ROWS: [Row; 6] = [
    // A line uses the frame after the one that an output lies on: outputs 1 to 4 need 2, 2, 3 and 3 frames.
    Row {
        source: (Format::S32Le, 24000),
        target: (Format::S16Le, 48000),
        counts: [4, 0, 0, 0],
        eaten: [3, 0, 0, 0],
        frames: [0, 50, 100, 150],
    },
    Row {
        source: (Format::S32Le, 24000),
        target: (Format::S16Le, 48000),
        counts: [1, 1, 1, 1],
        eaten: [2, 0, 1, 0],
        frames: [0, 50, 100, 150],
    },
    Row {
        source: (Format::S32Le, 24000),
        target: (Format::S16Le, 48000),
        counts: [0, 3, 0, 1],
        eaten: [0, 3, 0, 0],
        frames: [0, 50, 100, 150],
    },
    // Down, output k lies on frame 2k, and uses the next one.
    Row {
        source: (Format::S32Le, 48000),
        target: (Format::S16Le, 24000),
        counts: [1, 2, 0, 1],
        eaten: [2, 4, 0, 2],
        frames: [0, 200, 400, 600],
    },
    // A frame for each frame, by one stage and by none.
    Row {
        source: (Format::S32Le, 48000),
        target: (Format::S16Le, 48000),
        counts: [2, 1, 1, 0],
        eaten: [2, 1, 1, 0],
        frames: [0, 100, 200, 300],
    },
    Row {
        source: (Format::S32Le, 48000),
        target: (Format::S32Le, 48000),
        counts: [1, 0, 3, 0],
        eaten: [1, 0, 3, 0],
        frames: [0, 6553600, 13107200, 19660800],
    },
];

// Settings of one channel at a rate within the limits.
fn settings(end: End) -> Settings
    ensures rate { IsRate result.rate }
    ensures layout { result.layout ≡ One }
{
    let (format, rate) = end;
    Settings {
        format,
        layout: Layout::One,
        rate: rate.clamp(RATE_LEAST, RATE_MOST),
    }
}

// The plan between two settings of one channel, with lines between frames.
fn plan_between(source: &Settings, target: &Settings, tables: &Tables) -> Plan
    requires source_rate { IsRate source.now.rate }
    requires target_rate { IsRate target.now.rate }
    requires source { source.now.layout ≡ One }
    requires target { target.now.layout ≡ One }
    ensures source { result.source ≡ One }
    ensures target { result.target ≡ One }
    ensures tables { HaveTables result.stages tables.now }
{
    plan_record(target, source, 1, tables)
}

// Fills `out` where the chain needs just the frames of `input` for that, after `given` frames. Answers whether it does.
fn may_give<B: Feeder>(
    chain: &mut ChainOf<B>,
    tables: &Tables,
    given: usize,
    input: &[i32],
    out: &mut [i32],
) -> bool
    requires few { given ≤ 4 }
    requires source { (plan_in chain.old).source ≡ One }
    requires target { (plan_in chain.old).target ≡ One }
    requires tables { HaveTables (plan_in chain.old).stages tables.now }
    requires gives { (x : List Frame)
        × GivesExactly B.kept tables.now chain.old x given }
    ensures plan { plan_in chain.new ≡ plan_in chain.old }
    ensures gives { IsTrue result → (x : List Frame)
        × GivesExactly B.kept tables.now chain.new x (given + length out.old) }
{
    let before = chain.plan().need(given as u64);
    let after = chain.plan().need(given as u64 + out.len() as u64);
    let enough = after.saturating_sub(before) == input.len() as u128;
    if enough {
        chain.give(tables, input, out);
    }
    enough
}

// Fills `out` in the pieces of a row, as far as these eat what the row says. Answers whether all do.
fn give_pieces<B: Feeder>(
    chain: &mut ChainOf<B>,
    tables: &Tables,
    row: &Row,
    out: &mut [i32],
) -> bool
    requires room { length out.old ≡ 4 }
    requires source { (plan_in chain.old).source ≡ One }
    requires target { (plan_in chain.old).target ≡ One }
    requires tables { HaveTables (plan_in chain.old).stages tables.now }
    requires gives { GivesExactly B.kept tables.now chain.old [] 0 }
{
    let (mut eaten, mut given) = (0, 0);
    for at in 0..4 {
        let frames = usize::from(row.eaten[at]);
        let count = usize::from(row.counts[at]);
        if eaten + frames > 8 || given + count > 4 {
            return false;
        }
        let input = &INPUT[eaten..eaten + frames];
        if !may_give(chain, tables, given, input, &mut out[given..given + count]) {
            return false;
        }
        eaten += frames;
        given += count;
    }
    true
}

// Whether a new chain gives what a row says.
fn is_right<B: Feeder>(alloc: Global, seven: SevenOf<B>, row: &Row) -> Result<bool, AllocError> {
    let Ok(rack) = RackOf::new(seven) else {
        return Ok(false);
    };
    let (source, target) = (settings(row.source), settings(row.target));
    let tables = Tables::none(alloc);
    let mut chain = ChainOf::new(alloc, rack)?;
    chain.reset(&plan_between(&source, &target, &tables));
    let mut out = [9; 4];
    Ok(give_pieces(&mut chain, &tables, row, &mut out) && out == row.frames)
}

// The first row that a new chain gives otherwise.
fn first_wrong(alloc: Global) -> Result<Option<usize>, AllocError> {
    for (at, row) in ROWS.iter().enumerate() {
        if !is_right(alloc, seven(alloc, Kind::Volume)?, row)? {
            return Ok(Some(at));
        }
    }
    Ok(None)
}

#[test]
fn a_chain_gives_each_row(rt: HostRuntime) -> Result<(), Fail> {
    assert_eq!(rt; first_wrong(rt.alloc())?, None);
    Ok(())
}
