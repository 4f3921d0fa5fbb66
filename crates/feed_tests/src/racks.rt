//! Boxes of each kind, and the racks of a run.

use feed_eq::EqFeeder;
use feed_format::DepthFeeder;
use feed_hold::HoldFeeder;
use feed_linear::LinearFeeder;
use feed_matrix::MatrixFeeder;
use feed_poly::PolyFeeder;
use feed_volume::VolumeFeeder;
use pcm_feeder::{Feeder, Kind, RackFault, Racks, Seven, WrongCount, WrongKind};
use std::alloc::{AllocError, Global};
use std::test::Fail;

type Boxed = Result<Box<dyn Feeder>, AllocError>;

fn matrix(alloc: Global) -> Boxed {
    Ok(Box::new(alloc, MatrixFeeder::new(alloc)?)?)
}

fn hold(alloc: Global) -> Boxed {
    Ok(Box::new(alloc, HoldFeeder::new(alloc)?)?)
}

fn linear(alloc: Global) -> Boxed {
    Ok(Box::new(alloc, LinearFeeder::new(alloc)?)?)
}

fn poly(alloc: Global) -> Boxed {
    Ok(Box::new(alloc, PolyFeeder::new(alloc)?)?)
}

fn volume(alloc: Global) -> Boxed {
    Ok(Box::new(alloc, VolumeFeeder::new(alloc)?)?)
}

fn depth(alloc: Global) -> Boxed {
    Ok(Box::new(alloc, DepthFeeder::new(alloc)?)?)
}

fn eq(alloc: Global) -> Boxed {
    Ok(Box::new(alloc, EqFeeder::new(alloc)?)?)
}

/// A box of a kind.
pub fn boxed(alloc: Global, kind: Kind) -> Boxed {
    match kind {
        Kind::Matrix => matrix(alloc),
        Kind::Hold => hold(alloc),
        Kind::Linear => linear(alloc),
        Kind::Poly => poly(alloc),
        Kind::Volume => volume(alloc),
        Kind::Depth => depth(alloc),
        Kind::Eq => eq(alloc),
    }
}

/// Seven boxes, of which the one for the volume is of this kind and each other is of its own.
pub fn seven(alloc: Global, kind: Kind) -> Result<Seven, AllocError> {
    Ok(Seven {
        matrix: matrix(alloc)?,
        hold: hold(alloc)?,
        linear: linear(alloc)?,
        poly: poly(alloc)?,
        volume: boxed(alloc, kind)?,
        depth: depth(alloc)?,
        eq: eq(alloc)?,
    })
}

// The boxes of `count` racks. Those at one place have this kind for their volume.
fn boxes(
    alloc: Global,
    count: usize,
    place: usize,
    volume: Kind,
) -> Result<Vec<Seven>, AllocError> {
    let mut list = Vec::new(alloc);
    for at in 0..count {
        let volume = if at == place { volume } else { Kind::Volume };
        list.push(seven(alloc, volume)?)?;
    }
    Ok(list)
}

// How many racks there are, a place, the kind of the box for the volume there, and what is said of them.
type Row = (usize, usize, Kind, Result<usize, RackFault>);

const ROWS: [Row; 4] = [
    (33, 0, Kind::Volume, Ok(33)),
    (
        32,
        0,
        Kind::Volume,
        Err(RackFault::Count(WrongCount { found: 32 })),
    ),
    (33, 32, Kind::Depth, Err(RackFault::WrongBox(WRONG))),
    // A wrong box is reported before the number.
    (34, 0, Kind::Depth, Err(RackFault::WrongBox(WRONG))),
];

const WRONG: WrongKind = WrongKind {
    place: Kind::Volume,
    found: Kind::Depth,
};

// What is said of the boxes of a row.
fn said_of(alloc: Global, row: &Row) -> Result<Result<usize, RackFault>, AllocError> {
    let (count, place, volume, _) = *row;
    let boxes = boxes(alloc, count, place, volume)?;
    match Racks::of_boxes(alloc, boxes) {
        Ok(racks) => Ok(Ok(racks.into_list().len())),
        Err(fault) => Ok(Err(fault)),
    }
}

// The first row of which something else is said.
fn first_wrong(alloc: Global) -> Result<Option<usize>, AllocError> {
    for (at, row) in ROWS.iter().enumerate() {
        if said_of(alloc, row)? != row.3 {
            return Ok(Some(at));
        }
    }
    Ok(None)
}

#[test]
fn boxes_make_the_racks_of_a_run(rt: HostRuntime) -> Result<(), Fail> {
    assert_eq!(rt; first_wrong(rt.alloc())?, None);
    Ok(())
}
