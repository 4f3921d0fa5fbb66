//! What a hand-over ends: the runs of channels that play.

use crate::walk::Visit;
use pcm_desk::Here;
use pcm_feeder::Feeder;
use pcm_play::PlayChannelOf;

/// Ends a draining run of which nothing is left to give or to pass, where the mix and the device are.
#[derive(Clone, Copy)]
pub(crate) struct Settling {
    pub here: Here,
}

impl<B: Feeder> Visit<PlayChannelOf<B>> for Settling {
    ghost use Rattle.pcm_play.specs.Channels.{MayEndRun, PlayLeaves, SettlesBook};

    ghost may = { λ _. MayEndRun B.kind };

    ghost leaves = { λ settling _. PlayLeaves B.kind B.kept (SettlesBook settling.here) };

    fn visit(&self, _slot: usize, channel: &mut PlayChannelOf<B>) {
        channel.settle(self.here);
    }
}
