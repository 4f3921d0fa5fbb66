//! What a channel keeps, as bytes.

use crate::StateFault;
use pcm_feeder::{Feeder, Tables};
use pcm_path::Channel;

/// How many bytes spell what a channel keeps at most.
pub const STATE_MOST: usize = 262_144;

/// How many bytes told what was kept, or why they tell nothing.
pub type Told = Result<usize, StateFault>;

/// A channel that can be saved and loaded.
pub trait Saved<B: Feeder>: Channel<B> {
    ghost use Rattle.std.specs.Prelude.{◌≡◌, ◌≤◌, ◌++◌, ℕ, List, drop, length, IfOk, IsOkAnd};
    ghost use Rattle.pcm_feeder.specs.Filters.{Filters};
    ghost use Rattle.pcm_save.specs.States.{CanBeLoaded, CanLoad, HasLoaded, IsHeldFitted, IsKnown};
    ghost use Rattle.pcm_save.specs.declared.saved.TheConstants.{STATE_MOST};

    // The bytes that spell what it keeps.
    ghost state: { Self → List ℕ };

    // It is ready with these filters.
    ghost ready: { Filters → Self → Type 0 };

    // Its numbers fit their types.
    ghost fits: { Self → Type 0 };

    /// How many bytes spell what it keeps.
    fn state_size(&self) -> usize
        requires { IsHeldFitted Self.path Self.is_free B.kept self.now }
        ensures size { result ≡ length (state self.now) }
        ensures most { result ≤ STATE_MOST };

    /// Spells what it keeps.
    fn save(&self, out: &mut [u8])
        requires fitted { IsHeldFitted Self.path Self.is_free B.kept self.now }
        requires size { length out.old ≡ length (state self.now) }
        ensures saved { out.new ≡ state self.now }
        ensures fits { fits self.now };

    /// Goes on as the front of the bytes tells, and returns how many these are. The samples are scratch. Takes no memory.
    fn load(&mut self, tables: &Tables, bytes: &[u8], past: &mut [i32]) -> Told
        requires { CanLoad Self.path B.kind past.old self.old }
        ensures loaded { IfOk result (λ count. HasLoaded Self.path state ready B.mark tables.now bytes.now count self.old self.new) }
        // What was saved of a channel of its device is taken, and what stands behind it is left.
        ensures taken { (saved : Self) (rest : List ℕ) → CanBeLoaded Self.path ready fits tables.now saved self.old
            → bytes.now ≡ state saved ++ rest → IsOkAnd result (λ count. drop count bytes.now ≡ rest) };

    // It is known by its bytes.
    ghost known: { IsKnown Self.Channel.path ready Self.Channel.stands_as state };
}
