//! What the channels of a way keep, in the order of their slots.

ghost use Rattle.std.specs.Prelude.{◌≡◌, ◌≤◌, ◌*◌, ◌++◌, ℕ, List, drop, length, All, IfOk, IsOkAnd};
ghost use Rattle.std.specs.List.{flat_map};
ghost use Rattle.pcm_oss.specs.declared.event.TheConstants.{SLOTS};
ghost use Rattle.pcm_sequence.specs.Fixed.{fixed_items, fixed_len};
ghost use Rattle.pcm_save.specs.States.{AreAsMany, CanAllBeLoaded, CanLoadAll, HaveLoaded, IsHeldFitted};
ghost use Rattle.pcm_save.specs.declared.saved.TheConstants.{STATE_MOST};

use crate::{Saved, StateFault};
use pcm_feeder::{Feeder, Tables};
use pcm_sequence::Fixed;

// How many bytes spell what channels keep.
fn size_all<B: Feeder, C: Saved<B>>(channels: &[C]) -> usize
    requires few { length channels.now ≤ SLOTS }
    requires fitted { All (IsHeldFitted C.path C.is_free B.kept) channels.now }
    ensures size { result ≡ length (flat_map C.state channels.now) }
    ensures most { result ≤ length channels.now * STATE_MOST }
{
    if channels.is_empty() {
        return 0;
    }
    channels[0].state_size() + size_all(&channels[1..])
}

// Spells what channels keep, one after another.
fn save_all<B: Feeder, C: Saved<B>>(channels: &[C], out: &mut [u8])
    requires fitted { All (IsHeldFitted C.path C.is_free B.kept) channels.now }
    requires size { length out.old ≡ length (flat_map C.state channels.now) }
    ensures saved { out.new ≡ flat_map C.state channels.now }
    ensures fit { All C.fits channels.now }
{
    if channels.is_empty() {
        return;
    }
    let size = channels[0].state_size();
    channels[0].save(&mut out[..size]);
    save_all(&channels[1..], &mut out[size..]);
}

// Each channel goes on as the bytes tell, one after another. Returns how many bytes that were.
fn load_all<B: Feeder, C: Saved<B>>(
    channels: &mut [C],
    tables: &Tables,
    bytes: &[u8],
    past: &mut [i32],
) -> Result<usize, StateFault>
    requires { CanLoadAll C.path B.kind past.old channels.old }
    ensures loaded { IfOk result (λ count. HaveLoaded C.path C.state C.ready B.mark tables.now bytes.now count channels.old channels.new) }
    ensures taken { (saved : List C) (rest : List ℕ) → CanAllBeLoaded C.path C.ready C.fits tables.now saved channels.old
        → bytes.now ≡ flat_map C.state saved ++ rest → IsOkAnd result (λ count. drop count bytes.now ≡ rest) }
{
    let mut at = 0;
    for slot in 0..channels.len() {
        at += channels[slot].load(tables, &bytes[at..], past)?;
    }
    Ok(at)
}

/// How many bytes spell what the channels of a device keep.
pub fn size_slots<B: Feeder, C: Saved<B>>(channels: &Fixed<C>) -> usize
    requires few { fixed_len channels.now ≤ SLOTS }
    requires fitted { All (IsHeldFitted C.path C.is_free B.kept) (fixed_items channels.now) }
    ensures size { result ≡ length (flat_map C.state (fixed_items channels.now)) }
    ensures most { result ≤ SLOTS * STATE_MOST }
    ensures count { length (fixed_items channels.now) ≡ fixed_len channels.now }
{
    size_all(channels)
}

/// Spells them, one after another.
pub fn save_slots<B: Feeder, C: Saved<B>>(channels: &Fixed<C>, out: &mut [u8])
    requires fitted { All (IsHeldFitted C.path C.is_free B.kept) (fixed_items channels.now) }
    requires size { length out.old ≡ length (flat_map C.state (fixed_items channels.now)) }
    ensures saved { out.new ≡ flat_map C.state (fixed_items channels.now) }
    ensures fit { All C.fits (fixed_items channels.now) }
    ensures count { length (fixed_items channels.now) ≡ fixed_len channels.now }
{
    save_all(channels, out);
}

/// Each channel of a device goes on as the bytes tell, one after another. Returns how many bytes that were.
pub fn load_slots<B: Feeder, C: Saved<B>>(
    channels: &mut Fixed<C>,
    tables: &Tables,
    bytes: &[u8],
    past: &mut [i32],
) -> Result<usize, StateFault>
    requires { CanLoadAll C.path B.kind past.old (fixed_items channels.old) }
    ensures len { AreAsMany channels.old channels.new }
    ensures count { length (fixed_items channels.new) ≡ fixed_len channels.new }
    ensures loaded { IfOk result (λ count. HaveLoaded C.path C.state C.ready B.mark tables.now bytes.now count
        (fixed_items channels.old) (fixed_items channels.new)) }
    ensures taken { (saved : List C) (rest : List ℕ) → CanAllBeLoaded C.path C.ready C.fits tables.now saved (fixed_items channels.old)
        → bytes.now ≡ flat_map C.state saved ++ rest → IsOkAnd result (λ count. drop count bytes.now ≡ rest) }
{
    load_all(channels, tables, bytes, past)
}
