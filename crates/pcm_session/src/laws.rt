//! What holds of every session: the functions here have no work, and their contracts are the laws.

ghost use Rattle.std.specs.Prelude.{◌≡◌};
ghost use Rattle.pcm_engine.specs.declared.limits.TheConstants.{LIFE};
ghost use Rattle.pcm_session.specs.Runs.{RunScripts};

use pcm_feeder::Feeder;

/// Calls one after another are the run of each script that has the same events, whatever its pool: the replies are the script's, and so
/// are the device's bytes.
pub fn sessions_run_scripts<B: Feeder>()
    ensures { RunScripts B.kept }
{}

/// How many frames a session gives to the device at most.
pub fn life_of_a_session()
    ensures life { LIFE ≡ 70368744177664 }
{}
