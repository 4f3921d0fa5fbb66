//! Bytes to a writer and from a reader, in the turns in which they take and give them.
ghost use Rattle.std.specs.Prelude.{◌≡◌, ◌≤◌, ◌<◌, length, take, IfOk, IfSome, OnOk, OnErr};
ghost use Rattle.std.specs.Io.KnownBytes.{Appends};
ghost use Rattle.pcm_outside.specs.Edge.{AppendsPart, ReadsOn};

use crate::outside::{ReadFault, WriteFault};
use std::alloc::Global;
use std::io::{Read, Write};

/// The bytes of the first turn of reads: most files have fewer.
const FIRST: usize = 4096;

/// The bytes of each further turn.
const TURN: usize = 65536;

/// Writes all of a piece. A writer that takes nothing of what is left has failed.
pub fn write_whole<W: Write>(to: &mut W, piece: &[u8]) -> Result<(), WriteFault>
    ensures ok { OnOk result (Appends (W.contents to.old) (W.contents to.new) piece.now) }
    ensures err { OnErr result (AppendsPart (W.contents to.old) (W.contents to.new) piece.now) }
{
    let mut rest = piece;
    while !rest.is_empty() {
        match to.write(rest) {
            Ok(0) | Err(_) => return Err(WriteFault),
            Ok(count) => rest = &rest[count..],
        }
    }
    Ok(())
}

/// Reads the first `most` bytes, or all where there are fewer.
pub fn read_front<R: Read>(alloc: Global, from: &mut R, most: usize) -> Result<Vec<u8>, ReadFault>
    ensures { IfOk result (λ v. IfSome (R.remaining from.old) (λ all. v.items ≡ take most all)) }
{
    let mut turn = [0; FIRST];
    let bytes = read_on(alloc, from, FIRST.min(most), &[], &mut turn)?;
    if bytes.len() < FIRST {
        return Ok(bytes);
    }
    read_rest(alloc, from, most, &bytes)
}

// A function of its own, so that its turn is cleared for long files alone.
#[inline(never)]
fn read_rest<R: Read>(
    alloc: Global,
    from: &mut R,
    most: usize,
    first: &[u8],
) -> Result<Vec<u8>, ReadFault>
    requires within { length first.now ≤ most }
    ensures { IfOk result (λ v. ReadsOn (R.remaining from.old) (R.remaining from.new) first.now v.items most) }
{
    let mut turn = [0; TURN];
    read_on(alloc, from, most, first, &mut turn)
}

// Reads after the first bytes until there are `most` or no more come, as many at a time as the turn has.
fn read_on<R: Read>(
    alloc: Global,
    from: &mut R,
    most: usize,
    first: &[u8],
    turn: &mut [u8],
) -> Result<Vec<u8>, ReadFault>
    requires turn { 0 < length turn.old }
    requires within { length first.now ≤ most }
    ensures { IfOk result (λ v. ReadsOn (R.remaining from.old) (R.remaining from.new) first.now v.items most) }
{
    let Ok(mut bytes) = Vec::from_slice(alloc, first) else {
        return Err(ReadFault::Memory);
    };
    while bytes.len() < most {
        let want = turn.len().min(most - bytes.len());
        let Ok(count) = from.read(&mut turn[..want]) else {
            return Err(ReadFault::Failed);
        };
        if count == 0 {
            break;
        }
        if bytes.extend_from_slice(&turn[..count]).is_err() {
            return Err(ReadFault::Memory);
        }
    }
    Ok(bytes)
}
