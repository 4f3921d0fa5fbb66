//! What is done to all channels of a way, in the order of their slots.

ghost use Rattle.std.specs.Prelude.{◌≡◌, ◌≤◌, All};
ghost use Rattle.pcm_sequence.specs.Fixed.{fixed_items, fixed_len};
ghost use Rattle.pcm_oss.specs.declared.event.TheConstants.{SLOTS};
ghost use Rattle.pcm_vchan.specs.Starts.{EachAt};

use pcm_sequence::Fixed;

/// What is done to a channel, by its slot.
pub(crate) trait Visit<C> {
    ghost use Rattle.std.specs.Prelude.{◌<◌, ℕ};
    ghost use Rattle.pcm_oss.specs.declared.event.TheConstants.{SLOTS};

    // It may be done to this channel.
    ghost may: { Self → C → Type 0 };

    // What it leaves of that of a slot.
    ghost leaves: { Self → ℕ → C → C → Type 0 };

    fn visit(&self, slot: usize, channel: &mut C)
        requires few { slot < SLOTS }
        requires due { may self.now channel.old }
        ensures { leaves self.now slot channel.old channel.new };
}

/// Visits the channel of each slot.
pub(crate) fn walk<C, V: Visit<C>>(channels: &mut Fixed<C>, visit: &V)
    requires few { fixed_len channels.old ≤ SLOTS }
    requires due { All (V.may visit.now) (fixed_items channels.old) }
    ensures len { fixed_len channels.new ≡ fixed_len channels.old }
    ensures each { EachAt (V.leaves visit.now) (fixed_items channels.old) (fixed_items channels.new) }
{
    for slot in 0..channels.iter().len() {
        visit.visit(slot, &mut channels[slot]);
    }
}
