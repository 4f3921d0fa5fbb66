//! What holds of every engine: the functions here have no work, and their contracts are the laws.

ghost use Rattle.std.specs.Prelude.{ℕ, List};
ghost use Rattle.pcm_feeder.specs.Filters.{Filters};
ghost use Rattle.pcm_desk.specs.declared.device.Device.{Device};
ghost use Rattle.pcm_engine.specs.declared.engine.EngineOf.{EngineOf};
ghost use Rattle.pcm_engine.specs.Clones.{IsCloneOf};
ghost use Rattle.pcm_engine.specs.Engines.{StandsWithAlike, StandsWithLonger};
ghost use Rattle.pcm_engine.specs.Saved.{HasState, IsEngineOf};

use pcm_feeder::Feeder;

/// An engine that stands for events with a pool stands for them with every pool that is the same to them: so a caller may put more bytes
/// after those of its pool between two steps.
pub fn engines_stand_with_alike_pools<B: Feeder>()
    ensures alike { (engine : EngineOf B) → StandsWithAlike B.kept engine }
    ensures longer { (engine : EngineOf B) → StandsWithLonger B.kept engine }
{}

/// Engines of one device with the same filters are known by their states: two that have the same bytes go on as one.
pub fn engines_are_known_by_their_states<B: Feeder>()
    ensures { (device : Device) (filters : Filters) (bytes : List ℕ) (one other : EngineOf B) → IsEngineOf device filters one → IsEngineOf device filters other
        → HasState B.kind B.kept bytes one → HasState B.kind B.kept bytes other → IsCloneOf B.kind B.kept one other }
{}
