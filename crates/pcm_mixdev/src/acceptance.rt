//! Which requests are accepted.

ghost use Rattle.std.specs.Prelude.{◌≡◌};
ghost use Rattle.pcm_mixdev.specs.Mixers.{may_ask};

use pcm_oss::{MixRequest, is_volume};

/// Whether a request is accepted, where there are `slots` slots.
pub fn may_ask(slots: u32, request: MixRequest) -> bool
    ensures { result ≡ may_ask slots request }
{
    match request {
        MixRequest::SetMaster(volume) => is_volume(volume),
        MixRequest::GetMaster => true,
        MixRequest::SetSlot { slot, volume } => slot < slots && is_volume(volume),
        MixRequest::GetSlot(slot) => slot < slots,
        MixRequest::Mute { slot, on } => slot < slots && on <= 1,
    }
}
