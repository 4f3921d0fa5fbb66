//! The weights between two layouts.

ghost use Rattle.std.specs.Prelude.{◌≡◌, ◌≤◌, take, All};
ghost use Rattle.pcm_format.specs.Layouts.{channels_of};
ghost use Rattle.pcm_format.specs.declared.layout.Layout.TheVariants as layouts;
ghost use Rattle.feed_matrix.specs.Weights.{row_of, AreWeights, IsWeight};

use pcm_format::{Layout, Position};

// The weights of each position of a layout, in rows: one number for each position of the source.
#[inline(always)]
pub(crate) fn weights(from: Layout, to: Layout) -> [[u32; 8]; 8]
    ensures { AreWeights from to result }
{
    let mut rows = [[0; 8]; 8];
    for at in 0..to.channels() {
        rows[at] = row(from, to, to.position(at));
    }
    rows
}

// The weights of one position of a layout.
#[inline(always)]
fn row(from: Layout, to: Layout, target: Position) -> [u32; 8]
    ensures row { take (channels_of from) result ≡ row_of from to target }
    ensures limits { All (λ weight. weight ≤ 65536) result }
{
    let mut row = [0; 8];
    for at in 0..from.channels() {
        row[at] = weight(to, target, from.position(at));
    }
    row
}

// The weight with which sound goes to a position of a layout, where 65536 is one. Sound of positions
// that two, four or six lack goes to others or nowhere, and all else as to eight.
#[inline(always)]
fn weight(to: Layout, target: Position, source: Position) -> u32
    ensures { IsWeight to target source result }
{
    match (to, target, source) {
        (Layout::One, _, _) => to_one(target, source),
        (Layout::Two | Layout::Four, Position::FL | Position::FR, Position::FC) => 46341,
        (Layout::Two | Layout::Four, _, Position::FC | Position::LFE) => 0,
        (Layout::Two, Position::FL, Position::BL | Position::SL) => 46341,
        (Layout::Two, Position::FR, Position::BR | Position::SR) => 46341,
        (Layout::Two, _, Position::BL | Position::BR | Position::SL | Position::SR) => 0,
        (Layout::Four | Layout::Six, Position::BL, Position::SL) => 46341,
        (Layout::Four | Layout::Six, Position::BR, Position::SR) => 46341,
        (Layout::Four | Layout::Six, _, Position::SL | Position::SR) => 0,
        _ => to_eight(target, source),
    }
}

#[inline(always)]
fn to_one(target: Position, source: Position) -> u32
    ensures { IsWeight layouts.One target source result }
{
    match (target, source) {
        (Position::M, Position::M) => 65536,
        (Position::M, Position::FL | Position::FR) => 32768,
        (Position::M, Position::FC) => 46341,
        (Position::M, Position::BL | Position::BR | Position::SL | Position::SR) => 23170,
        _ => 0,
    }
}

// Every position goes to itself, and mono to both sides of the front.
#[inline(always)]
fn to_eight(target: Position, source: Position) -> u32
    ensures { IsWeight layouts.Eight target source result }
{
    match (target, source) {
        (Position::FL, Position::M | Position::FL) => 65536,
        (Position::FR, Position::M | Position::FR) => 65536,
        (Position::FC, Position::FC) | (Position::LFE, Position::LFE) => 65536,
        (Position::BL, Position::BL) | (Position::BR, Position::BR) => 65536,
        (Position::SL, Position::SL) | (Position::SR, Position::SR) => 65536,
        _ => 0,
    }
}
