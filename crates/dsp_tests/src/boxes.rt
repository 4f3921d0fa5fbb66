//! The boxed stages of a run.

use feed_eq::EqFeeder;
use feed_format::DepthFeeder;
use feed_hold::HoldFeeder;
use feed_linear::LinearFeeder;
use feed_matrix::MatrixFeeder;
use feed_poly::PolyFeeder;
use feed_volume::VolumeFeeder;
use pcm_feeder::{Feeder, RACKS, Seven};
use std::alloc::{AllocError, Global};

type Boxed = Result<Box<dyn Feeder>, AllocError>;

fn matrix(alloc: Global) -> Boxed {
    Ok(Box::new(alloc, MatrixFeeder::new(alloc)?)?)
}

fn hold(alloc: Global) -> Boxed {
    Ok(Box::new(alloc, HoldFeeder::new(alloc)?)?)
}

fn linear(alloc: Global) -> Boxed {
    Ok(Box::new(alloc, LinearFeeder::new(alloc)?)?)
}

fn poly(alloc: Global) -> Boxed {
    Ok(Box::new(alloc, PolyFeeder::new(alloc)?)?)
}

fn volume(alloc: Global) -> Boxed {
    Ok(Box::new(alloc, VolumeFeeder::new(alloc)?)?)
}

fn depth(alloc: Global) -> Boxed {
    Ok(Box::new(alloc, DepthFeeder::new(alloc)?)?)
}

fn eq(alloc: Global) -> Boxed {
    Ok(Box::new(alloc, EqFeeder::new(alloc)?)?)
}

// The boxes of a rack.
fn seven(alloc: Global) -> Result<Seven, AllocError> {
    Ok(Seven {
        matrix: matrix(alloc)?,
        hold: hold(alloc)?,
        linear: linear(alloc)?,
        poly: poly(alloc)?,
        volume: volume(alloc)?,
        depth: depth(alloc)?,
        eq: eq(alloc)?,
    })
}

/// The boxes of all racks.
pub fn boxes(alloc: Global) -> Result<Vec<Seven>, AllocError> {
    let mut boxes = Vec::new(alloc);
    for _ in 0..RACKS {
        boxes.push(seven(alloc)?)?;
    }
    Ok(boxes)
}
