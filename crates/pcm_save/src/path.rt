//! The bytes of a path: those that wait in its ring, and what its chain keeps of the past, unless the channel is free.

ghost use Rattle.std.specs.Prelude.{◌≡◌, ◌+◌, ◌*◌, ◌≤◌, false, length};
ghost use Rattle.pcm_chain.specs.Chains.{AreFitted};
ghost use Rattle.pcm_chain.specs.declared.past.TheConstants.{PAST_SAMPLES};
ghost use Rattle.pcm_oss.specs.declared.fragments.TheConstants.{RING_BYTES};
ghost use Rattle.pcm_save.specs.Parts.{path_bytes};

use crate::past::{past_size, put_past};
use pcm_feeder::Feeder;
use pcm_path::PathOf;

/// How many bytes these are.
pub(crate) fn path_size<B: Feeder>(free: bool, path: &PathOf<B>) -> usize
    requires fitted { free ≡ false → AreFitted B.kept path.now.chain }
    requires room { path.now.ring.size ≤ RING_BYTES }
    ensures size { result ≡ length (path_bytes B.kept free path.now) }
    ensures most { result ≤ path.now.ring.size + 4 * PAST_SAMPLES }
{
    path.ring.fill() + past_size(free, &path.chain)
}

/// Puts these bytes.
pub(crate) fn put_path<B: Feeder>(free: bool, path: &PathOf<B>, out: &mut [u8])
    requires fitted { free ≡ false → AreFitted B.kept path.now.chain }
    requires size { length out.old ≡ length (path_bytes B.kept free path.now) }
    ensures { out.new ≡ path_bytes B.kept free path.now }
{
    let (waiting, past) = out.split_at_mut(path.ring.fill());
    path.ring.copy_to(waiting);
    put_past(free, &path.chain, past);
}
