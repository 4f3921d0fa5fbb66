//! Requests, each made from a number.

ghost use Rattle.std.specs.Prelude.{◌≡◌};
ghost use Rattle.pcm_foreign.specs.Requests.{mix_request_from, request_from};

use pcm_oss::{MixRequest, Request};

/// The request of a number, in the order of `Request`. One without an argument ignores `argument`.
pub fn request_from(request: u32, argument: u32) -> Option<Request>
    ensures { result ≡ request_from request argument }
{
    let found = match request {
        0 => Request::SetFmt(argument),
        1 => Request::Speed(argument),
        2 => Request::Channels(argument),
        3 => Request::GetFmts,
        4 => Request::GetCaps,
        5 => Request::GetBlkSize,
        6 => Request::SetFragment(argument),
        7 => Request::GetOSpace,
        8 => Request::GetISpace,
        9 => Request::GetOPtr,
        10 => Request::GetIPtr,
        11 => Request::GetODelay,
        12 => Request::GetError,
        13 => Request::SetTrigger(argument),
        14 => Request::GetTrigger,
        15 => Request::SetPlayVol(argument),
        16 => Request::GetPlayVol,
        17 => Request::Post,
        18 => Request::Sync,
        19 => Request::Halt,
        _ => return None,
    };
    Some(found)
}

/// The request of the mixer device of a number, in the order of `MixRequest`. `value` is a volume, or 1 for a slot that is muted and 0
/// for one that isn't.
pub fn mix_request_from(request: u32, slot: u32, value: u32) -> Option<MixRequest>
    ensures { result ≡ mix_request_from request slot value }
{
    match request {
        0 => Some(MixRequest::SetMaster(value)),
        1 => Some(MixRequest::GetMaster),
        2 => Some(MixRequest::SetSlot {
            slot,
            volume: value,
        }),
        3 => Some(MixRequest::GetSlot(slot)),
        4 => Some(MixRequest::Mute { slot, on: value }),
        _ => None,
    }
}
