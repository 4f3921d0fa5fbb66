//! What a request would be answered.

ghost use Rattle.std.specs.Prelude.{◌≡◌, Some, false};
ghost use Rattle.pcm_oss.specs.declared.event.Event.TheVariants.{Ioctl};
ghost use Rattle.pcm_oss.specs.declared.event.Way.TheVariants.{Play};
ghost use Rattle.pcm_desk.specs.Channels.{asking};
ghost use Rattle.pcm_desk.specs.Desk.{desk_here, play_at};
ghost use Rattle.pcm_desk.specs.PlayBooks.{is_play_free};
ghost use Rattle.pcm_engine.specs.Desks.{channel_asked};
ghost use Rattle.pcm_engine.specs.Engines.{desk_of, device_of};
ghost use Rattle.pcm_engine.specs.Views.{HasPlayTaken};
ghost use Rattle.pcm_status.specs.Asked.{CanAskOf, HasSlot};
ghost use Rattle.pcm_status.specs.Statuses.{would};

use pcm_desk::Held;
use pcm_engine::{EngineOf, member_refusal};
use pcm_feeder::Feeder;
use pcm_oss::{Answer, Errno, Request, Way};

/// What a request of the channel of a descriptor would be answered now. Nothing is done: the next position still counts fragments from the
/// one answered before, and no shortage is forgotten.
pub fn reply_of<B: Feeder>(engine: &EngineOf<B>, fd: u8, request: Request) -> Result<Answer, Errno>
    requires { CanAskOf B.kind B.kept engine.now fd }
    ensures { result ≡ would (device_of engine.now) (desk_of engine.now) (Ioctl fd request) }
{
    let Some(held) = engine.held(fd) else {
        return Err(Errno::BadF);
    };
    match member_refusal(engine.group_of(held) > 0, request) {
        Some(errno) => Err(errno),
        None => channel_reply(engine, held, request),
    }
}

// What the channel itself replies.
fn channel_reply<B: Feeder>(
    engine: &EngineOf<B>,
    held: Held,
    request: Request,
) -> Result<Answer, Errno>
    requires slot { HasSlot B.kind B.kept engine.now held.way held.slot }
    requires taken { held.way ≡ Play
        → is_play_free (play_at (device_of engine.now) (desk_of engine.now) held.slot).state ≡ false }
    ensures { result
        ≡ (channel_asked (device_of engine.now) (desk_of engine.now) request (Some held)).reply }
{
    match held.way {
        Way::Play => play_reply(engine, held.slot, request),
        Way::Record => engine.record_book(held.slot).asked(request).reply,
        Way::Map => engine.map_book(held.slot).asked(request).reply,
    }
}

// What one that plays replies.
fn play_reply<B: Feeder>(
    engine: &EngineOf<B>,
    slot: usize,
    request: Request,
) -> Result<Answer, Errno>
    requires { HasPlayTaken B.kind B.kept engine.now slot }
    ensures { result ≡ (asking (device_of engine.now) (desk_here (device_of engine.now) (desk_of engine.now))
        request (play_at (device_of engine.now) (desk_of engine.now) slot)).reply }
{
    let rate = engine.play_rate(slot);
    let mix_rate = engine.device().mix.rate;
    let here = engine.here();
    engine
        .play_book(slot)
        .asked(rate, mix_rate, here, request)
        .reply
}
