//! Conversions of bodies through boxes, block by block.

ghost use Rattle.pcm_feeder.specs.Limits.{IsRate};

use crate::racks::seven;
use pcm_convert::{BLOCK, ConversionOf};
use pcm_feeder::{Feeder, Kind, RackOf, SevenOf};
use pcm_format::{Format, Layout, RATE_LEAST, RATE_MOST, Settings};
use std::alloc::{AllocError, Global};
use std::test::Fail;

// A format, a layout and a rate.
type End = (Format, Layout, u32);

// The settings of both ends, a body, how many frames come out of it, and their bytes.
type Row<'a> = (End, End, &'a [u8], u128, &'a [u8]);

const ROWS: [Row<'static>; 2] = [
    // A line goes on to silence after the last frame, and a part of a frame is not heard.
    (
        (Format::S16Le, Layout::Two, 24000),
        (Format::S16Le, Layout::One, 48000),
        b"\0\0\0\0\x64\0\xc8\0\x0a\x0b\x0c",
        4,
        b"\0\0\x4b\0\x96\0\x4b\0",
    ),
    (
        (Format::U8, Layout::One, 8000),
        (Format::S16Be, Layout::One, 8000),
        b"\x80\xff\x00",
        3,
        b"\0\0\x7f\0\x80\0",
    ),
];

// Settings at a rate within the limits.
fn settings(end: End) -> Settings
    ensures { IsRate result.rate }
{
    let (format, layout, rate) = end;
    Settings {
        format,
        layout,
        rate: rate.clamp(RATE_LEAST, RATE_MOST),
    }
}

// Whether a conversion counts and gives what a row says, in one block, and nothing after it.
fn is_right<B: Feeder>(
    alloc: Global,
    seven: SevenOf<B>,
    row: &Row<'_>,
) -> Result<bool, AllocError> {
    let Ok(rack) = RackOf::new(seven) else {
        return Ok(false);
    };
    let (source, target, body, frames, want) = row;
    let (source, target) = (settings(*source), settings(*target));
    let mut conversion = ConversionOf::new(alloc, rack, source, target)?;
    let mut block = vec![in alloc; 0u8; BLOCK * target.frame_bytes()]?;
    let given = conversion.next_block(body, &mut block);
    Ok(conversion.count(body) == *frames && block.get(..given) == Some(*want))
}

// The first row whose conversion has another outcome.
fn first_wrong(alloc: Global) -> Result<Option<usize>, AllocError> {
    for (at, row) in ROWS.iter().enumerate() {
        if !is_right(alloc, seven(alloc, Kind::Volume)?, row)? {
            return Ok(Some(at));
        }
    }
    Ok(None)
}

#[test]
fn a_conversion_gives_each_row(rt: HostRuntime) -> Result<(), Fail> {
    assert_eq!(rt; first_wrong(rt.alloc())?, None);
    Ok(())
}
