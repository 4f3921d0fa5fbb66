//! What is asked of the mixer device.

ghost use Rattle.std.specs.Prelude.{◌≡◌, IsErr};
ghost use Rattle.pcm_desk.specs.Device.{mixed_slots, unfiltered};
ghost use Rattle.pcm_mixdev.specs.Mixers.{mixer_after, mixer_reply};
ghost use Rattle.pcm_oss.specs.Replies.{bytes_due};
ghost use Rattle.pcm_vchan.specs.Lending.{with_mixer};

use pcm_feeder::Feeder;
use pcm_oss::{Answer, Errno, MixRequest};
use pcm_vchan::ParentOf;

/// Asks the mixer device of a parent, beside all slots that are mixed. Nothing else of the parent changes.
pub fn ask_mixer<B: Feeder>(parent: &mut ParentOf<B>, request: MixRequest) -> Result<Answer, Errno>
    ensures parent { parent.new ≡ with_mixer parent.old (mixer_after (mixed_slots (unfiltered parent.old.device)) request parent.old.mixer) }
    ensures reply { result ≡ mixer_reply (mixed_slots (unfiltered parent.old.device)) request parent.old.mixer }
    ensures refused { IsErr result → parent.new ≡ parent.old }
    ensures silent { bytes_due result ≡ 0 }
{
    let slots = parent.device.play_slots + parent.device.map_slots;
    parent.mixer().ask(slots, request)
}
