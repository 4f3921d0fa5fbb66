//! The state of a session's engine as bytes, and a session that goes on as bytes tell.

ghost use Rattle.std.specs.Prelude.{◌≡◌, ◌<◌, ◌^◌, IfErr, IfOk, length};
ghost use Rattle.pcm_engine.specs.Engines.{AreReady};
ghost use Rattle.pcm_engine.specs.Saved.{engine_state};
ghost use Rattle.pcm_session.specs.Beginnings.{CanBeCloned, first_reply};
ghost use Rattle.pcm_session.specs.States.{GoesOnFrom, IsCauseFor, IsSaved, load_fault_number};

use crate::session::SessionOf;
use pcm_engine::LoadFault;
use pcm_feeder::{Feeder, RacksOf};
use pcm_foreign::{
    CallFault, LONG_STATE, NO_MEMORY, NOT_A_STATE, OTHER_DEVICE, OUT_OF_ORDER, SHORT_STATE,
    UNSPELLED,
};
use std::alloc::Global;

impl<B: Feeder> SessionOf<B> {
    /// How many bytes spell all that the engine keeps.
    pub fn state_size(&self) -> usize
        requires ready { AreReady B.kind B.kept self.now.engine }
        ensures size { result ≡ length (engine_state B.kept self.now.engine) }
        ensures most { result < 2 ^ 42 }
    {
        self.engine.state_size()
    }

    /// Spells all that the engine keeps at the front of a room, whose rest stays. Returns how many bytes these are. Takes no memory.
    ///
    /// # Errors
    ///
    /// `Room` where the room is too small. It is as it was then.
    pub fn save(&self, out: &mut [u8]) -> Result<usize, CallFault>
        requires ready { AreReady B.kind B.kept self.now.engine }
        ensures { IsSaved B.kind B.kept self.now.engine out.old out.new result }
    {
        let size = self.engine.state_size();
        if out.len() < size {
            return Err(CallFault::Room);
        }
        self.engine.save(&mut out[..size]);
        Ok(size)
    }

    /// A session before its first call, whose engine is of the same device and filters, and goes on as the bytes tell. Its channels pick their
    /// stages from the racks. Nothing of this session changes. All memory is taken here; after a refusal the racks are dropped.
    ///
    /// # Errors
    ///
    /// As `LoadFault` says.
    pub fn try_load(
        &self,
        alloc: Global,
        racks: RacksOf<B>,
        bytes: &[u8],
    ) -> Result<SessionOf<B>, LoadFault>
        requires { CanBeCloned B.kind B.kept self.now.engine racks }
        ensures goes { IfOk result (λ session. GoesOnFrom B.kind B.kept bytes.now self.now.engine session.engine
            × (session.reply ≡ first_reply)) }
        ensures cause { IfErr result (IsCauseFor B.kind B.kept bytes.now self.now.engine) }
    {
        let engine = self.engine.try_load(alloc, racks, bytes)?;
        let session = SessionOf::of(alloc, engine)?;
        Ok(session)
    }
}

/// The number of why bytes make no engine.
pub fn load_fault_number(fault: LoadFault) -> i32
    ensures { result ≡ load_fault_number fault }
{
    match fault {
        LoadFault::Memory => NO_MEMORY,
        LoadFault::Foreign => NOT_A_STATE,
        LoadFault::Device => OTHER_DEVICE,
        LoadFault::Short => SHORT_STATE,
        LoadFault::Long => LONG_STATE,
        LoadFault::Unspelled => UNSPELLED,
        LoadFault::OutOfOrder => OUT_OF_ORDER,
    }
}
