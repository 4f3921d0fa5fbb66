//! A long stream through a filter, whole and in pieces.

ghost use Rattle.std.specs.Prelude.{◌≡◌, ◌<◌, length, All};
ghost use Rattle.pcm_feeder.specs.Limits.{IsCoef, IsTable};

use crate::stages::has_table;
use feed_poly::PolyFeeder;
use pcm_feeder::{Coefs, Feeder, Kind, Moved, Pull, Spec, Table, Tables, UNITY};
use std::alloc::{AllocError, Global};
use std::test::Fail;

// Coefficient k of the filter.
fn number(k: usize) -> i32
    ensures { IsCoef result }
{
    (k % 20011 * 7919 % 200001) as i32 - 100000
}

// A filter of 160 phases of 32 taps, for any two rates.
fn filter(numbers: Vec<i32>) -> Table
    requires count { length numbers.items ≡ 5120 }
    requires range { All IsCoef numbers.items }
    ensures { IsTable result }
{
    Table {
        src: 0,
        dst: 0,
        phases: 160,
        taps: 32,
        shift: 20,
        coefs: Coefs::new(numbers),
    }
}

// That filter alone.
fn filters(alloc: Global) -> Result<Tables, AllocError> {
    let mut numbers = Vec::with_capacity(alloc, 5120)?;
    for k in 0..5120 {
        numbers.push(number(k))?;
    }
    let mut list = Vec::new(alloc);
    list.push(filter(numbers))?;
    Ok(Tables::new(list, Vec::new(alloc)))
}

// The samples of 1000 frames of two channels.
fn sound(alloc: Global) -> Result<Vec<i32>, AllocError> {
    let mut samples = Vec::with_capacity(alloc, 2000)?;
    let mut last = 1u32;
    for _ in 0..2000 {
        last = last.wrapping_mul(1664525).wrapping_add(1013904223);
        samples.push(last.cast_signed())?;
    }
    Ok(samples)
}

// Feeds frames of two channels by turns, each with the next numbers of frames offered and wanted at most, and answers how many
// samples moved in all.
fn fed<B: Feeder>(
    feeder: &mut B,
    tables: &Tables,
    offers: &[usize],
    wants: &[usize],
    input: &[i32],
    output: &mut [i32],
) -> Moved
    requires offers { 0 < length offers.now }
    requires wants { 0 < length wants.now }
{
    let spec = Spec::Poly {
        src: 44100,
        dst: 48000,
        channels: 2,
        table: 0,
        taps: 32,
    };
    let (mut eaten, mut given) = (0, 0);
    if feeder.kind() != Kind::Poly || !has_table(spec, tables) {
        return Moved { eaten, given };
    }
    feeder.fit(spec);
    for turn in 0..input.len() + output.len() {
        let rest = &input[eaten..];
        let most = offers[turn % offers.len()].saturating_mul(2);
        let offered = &rest[..most.min(rest.len())];
        if offered.len() % 2 != 0 {
            return Moved { eaten, given };
        }
        let free = &mut output[given..];
        let room = free.len();
        let want = wants[turn % wants.len()].min(room / 2);
        let pull = Pull { gain: UNITY, want };
        let moved = feeder.feed(tables, pull, offered, free);
        eaten += moved.eaten.saturating_mul(2).min(offered.len());
        given += moved.given.saturating_mul(2).min(room);
    }
    Moved { eaten, given }
}

#[test]
fn cuts_change_nothing(rt: HostRuntime) -> Result<(), Fail> {
    let tables = filters(rt.alloc())?;
    let input = sound(rt.alloc())?;
    let mut feeder = PolyFeeder::new(rt.alloc())?;
    // The last output lies 1071 * 147 / 160 = 983 frames and more past the first, and 16 must come.
    let all = Moved {
        eaten: 2000,
        given: 2144,
    };
    let mut whole = vec![in rt.alloc(); 99; 2200]?;
    assert_eq!(rt;
        fed(&mut feeder, &tables, &[1000], &[1100], &input, &mut whole),
        all
    );
    let mut cut = vec![in rt.alloc(); 99; 2200]?;
    let offers = [1, 2, 3, 4, 5, 6, 7, 8, 9, 10, 11];
    let wants = [1, 2, 3, 4, 5, 6, 7];
    assert_eq!(rt;
        fed(&mut feeder, &tables, &offers, &wants, &input, &mut cut),
        all
    );
    assert!(rt; whole == cut);
    Ok(())
}
