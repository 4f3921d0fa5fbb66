//! A chain of boxes, and what it pulls by a plan.

ghost use Rattle.std.specs.Prelude.{◌≡◌};
ghost use Rattle.pcm_feeder.specs.Limits.{IsRate};
ghost use Rattle.pcm_plan.specs.Fits.{HaveTables};

use crate::racks::seven;
use pcm_chain::ChainOf;
use pcm_feeder::{Feeder, Gain, Kind, RackOf, SevenOf, Tables};
use pcm_format::{Format, Layout, RATE_LEAST, RATE_MOST, Settings};
use pcm_plan::{Plan, plan_play};
use pcm_ring::ByteRing;
use std::alloc::{AllocError, Global};
use std::test::Fail;

// A format, a layout and a rate.
type End = (Format, Layout, u32);

// A client, a device, the bytes that wait, how many frames are eaten and given, how many bytes wait then, and the samples
// out. The output has room for four frames.
struct Row {
    client: End,
    device: End,
    bytes: &'static [u8],
    eaten: usize,
    given: usize,
    left: usize,
    samples: [i32; 8],
}

// The gain of all rows: one on the left side, and a half on the right one.
const GAIN: Gain = Gain {
    left: 65536,
    right: 32768,
};

const ROWS: [Row; 4] = [
    // A frame more than there is room for.
    Row {
        client: (Format::U8, Layout::One, 48000),
        device: (Format::S16Le, Layout::Two, 48000),
        bytes: b"\x80\x81\x7f\xff\x00",
        eaten: 4,
        given: 4,
        left: 1,
        samples: [0, 0, 256, 128, -256, -128, 32512, 16256],
    },
    // FL, FR, FC, LFE, BL and BR of two frames, and a part of one. The volume is the only stage after the matrix.
    Row {
        client: (Format::S24Be, Layout::Six, 48000),
        device: (Format::S32Le, Layout::Two, 48000),
        bytes: b"\x00\x01\x80\xff\xfd\x00\x00\x00\x00\x7f\xff\xff\x00\x00\x00\x00\x00\x00\
        \x7f\xff\xff\x80\x00\x00\x00\x00\x00\x80\x00\x00\x7f\xff\xff\x80\x00\x00\
        \x01\x01\x01",
        eaten: 2,
        given: 2,
        left: 3,
        samples: [98304, -98304, 2147483647, -1073741824, 9, 9, 9, 9],
    },
    // A line gives the last frame only once the next has come.
    Row {
        client: (Format::S16Be, Layout::Two, 24000),
        device: (Format::S16Le, Layout::Two, 48000),
        bytes: b"\x00\x00\x00\x00\x00\x64\x00\xc8",
        eaten: 2,
        given: 2,
        left: 0,
        samples: [0, 0, 50, 50, 9, 9, 9, 9],
    },
    Row {
        client: (Format::S16Le, Layout::Two, 48000),
        device: (Format::S16Le, Layout::Two, 48000),
        bytes: b"\x01\x00\xfe",
        eaten: 0,
        given: 0,
        left: 3,
        samples: [9; 8],
    },
];

// Settings at a rate within the limits.
fn settings(end: End) -> Settings
    ensures { IsRate result.rate }
{
    let (format, layout, rate) = end;
    Settings {
        format,
        layout,
        rate: rate.clamp(RATE_LEAST, RATE_MOST),
    }
}

// The plan between two settings, with lines between frames.
fn plan_between(client: &Settings, device: &Settings, tables: &Tables) -> Plan
    requires client { IsRate client.now.rate }
    requires device { IsRate device.now.rate }
    ensures target { result.target ≡ device.now.layout }
    ensures tables { HaveTables result.stages tables.now }
{
    plan_play(client, device, 1, tables)
}

// Whether a new chain pulls what a row says.
fn is_right<B: Feeder>(alloc: Global, seven: SevenOf<B>, row: &Row) -> Result<bool, AllocError> {
    let Ok(rack) = RackOf::new(seven) else {
        return Ok(false);
    };
    let (client, device) = (settings(row.client), settings(row.device));
    let tables = Tables::none(alloc);
    let mut ring = ByteRing::new(alloc, 64)?;
    ring.put(row.bytes);
    let mut chain = ChainOf::new(alloc, rack)?;
    chain.reset(&plan_between(&client, &device, &tables));
    let mut out = [9; 8];
    let want = 8 / device.layout.channels();
    let pulled = chain.pull(
        &tables,
        GAIN,
        &mut ring,
        client.format,
        false,
        want,
        &mut out,
    );
    Ok(
        pulled.eaten == row.eaten
            && pulled.given == row.given
            && ring.fill() == row.left
            && out == row.samples,
    )
}

// The first row that a new chain pulls otherwise.
fn first_wrong(alloc: Global) -> Result<Option<usize>, AllocError> {
    for (at, row) in ROWS.iter().enumerate() {
        if !is_right(alloc, seven(alloc, Kind::Volume)?, row)? {
            return Ok(Some(at));
        }
    }
    Ok(None)
}

#[test]
fn a_chain_pulls_each_row(rt: HostRuntime) -> Result<(), Fail> {
    assert_eq!(rt; first_wrong(rt.alloc())?, None);
    Ok(())
}
