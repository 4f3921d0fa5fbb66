//! Which descriptors a client needn't wait for.

ghost use Rattle.std.specs.Prelude.{◌≡◌};
ghost use Rattle.pcm_engine.specs.Engines.{desk_of, device_of};
ghost use Rattle.pcm_status.specs.Asked.{CanAskOf};
ghost use Rattle.pcm_status.specs.Statuses.{is_readable, is_writable};

use crate::waits::{has_whole, takes_whole};
use pcm_engine::EngineOf;
use pcm_feeder::Feeder;
use pcm_oss::Way;

/// Whether a byte can be written to a descriptor now, as FreeBSD's `poll` asks it with a low-water mark of one byte.
pub fn is_writable<B: Feeder>(engine: &EngineOf<B>, fd: u8) -> bool
    requires { CanAskOf B.kind B.kept engine.now fd }
    ensures { result ≡ is_writable (device_of engine.now) (desk_of engine.now) fd }
{
    let Some(held) = engine.held(fd) else {
        return false;
    };
    match held.way {
        Way::Play => takes_whole(engine.play_book(held.slot), 1),
        Way::Record => false,
        Way::Map => false,
    }
}

/// Whether a byte can be read from a descriptor now.
pub fn is_readable<B: Feeder>(engine: &EngineOf<B>, fd: u8) -> bool
    requires { CanAskOf B.kind B.kept engine.now fd }
    ensures { result ≡ is_readable (device_of engine.now) (desk_of engine.now) fd }
{
    let Some(held) = engine.held(fd) else {
        return false;
    };
    match held.way {
        Way::Record => has_whole(engine.record_book(held.slot), 1),
        Way::Play => false,
        Way::Map => false,
    }
}
