//! The samples that a channel's chain keeps of the past, unless the channel is free.

ghost use Rattle.std.specs.Prelude.{◌≡◌, ◌≤◌, ◌*◌, false, length};
ghost use Rattle.pcm_chain.specs.Chains.{AreFitted};
ghost use Rattle.pcm_chain.specs.declared.past.TheConstants.{PAST_SAMPLES};
ghost use Rattle.pcm_save.specs.Parts.{past_bytes, IsPastOf};

use pcm_chain::{ChainOf, PAST_SAMPLES, plan_past};
use pcm_feeder::Feeder;
use pcm_plan::Plan;
use pcm_state::put_samples;

/// How many bytes spell these samples.
pub(crate) fn past_size<B: Feeder>(free: bool, chain: &ChainOf<B>) -> usize
    requires fitted { free ≡ false → AreFitted B.kept chain.now }
    ensures size { result ≡ length (past_bytes B.kept free chain.now) }
    ensures most { result ≤ 4 * PAST_SAMPLES }
{
    if free { 0 } else { 4 * chain.past_size() }
}

/// Spells these samples.
// Not inlined: the samples stand on the stack only meanwhile.
#[inline(never)]
pub(crate) fn put_past<B: Feeder>(free: bool, chain: &ChainOf<B>, out: &mut [u8])
    requires fitted { free ≡ false → AreFitted B.kept chain.now }
    requires size { length out.old ≡ length (past_bytes B.kept free chain.now) }
    ensures { out.new ≡ past_bytes B.kept free chain.now }
{
    if free {
        return;
    }
    let mut samples = [0i32; PAST_SAMPLES];
    let past = &mut samples[..chain.past_size()];
    chain.keep(past);
    put_samples(past, out);
}

/// How many samples a channel keeps whose chain goes by a plan.
pub(crate) fn past_samples(free: bool, plan: &Plan) -> usize
    ensures { IsPastOf free plan.now.stages result }
{
    if free { 0 } else { plan_past(plan) }
}
