//! What a slot of a device holds, whichever way its sound goes.

use pcm_desk::Device;
use pcm_feeder::{Feeder, RackOf, Tables};
use pcm_format::Settings;
use std::alloc::{AllocError, Global};

/// What is made, if there is memory for it.
pub type Made<T> = Result<T, AllocError>;

/// A channel of one of the ways.
pub trait Channel<B: Feeder>: Drop {
    ghost use Rattle.std.specs.Prelude.{◌≡◌, Bool, IfOk};
    ghost use Rattle.pcm_format.specs.declared.settings.Settings.{Settings};
    ghost use Rattle.pcm_feeder.specs.Filters.{Filters};
    ghost use Rattle.pcm_chain.specs.Chains.{HasRack};
    ghost use Rattle.pcm_desk.specs.declared.device.Device.{Device};
    ghost use Rattle.pcm_path.specs.declared.path.PathOf.{PathOf};
    ghost use Rattle.pcm_path.specs.Paths.{CanServe, CanOpen};
    ghost use Rattle.pcm_path.specs.Resumes.{CanResumeChannel, ChannelResumes};

    // The way of its sound, with its device.
    ghost path: { Self → PathOf B };

    ghost is_free: { Self → Bool };

    // It is of a device, and nobody has opened it.
    ghost is_unopened: { Filters → Device → Self → Type 0 };

    // What an opening with these settings makes of it.
    ghost begins: { Filters → Settings → Self → Self → Type 0 };

    // The second stands for whatever the first one does.
    ghost stands_as: { Self → Self → Type 0 };

    /// A channel of a device that nobody has opened. All its memory is taken here.
    fn new(alloc: Global, device: Device, tables: &Tables, rack: RackOf<B>) -> Made<Self>
        requires { CanServe B.kind device rack }
        ensures unopened { IfOk result (is_unopened tables.now device) }
        ensures boxes { IfOk result (λ made. HasRack B.mark rack (path made).chain) };

    /// Whether nobody has it.
    fn is_free(&self) -> bool
        ensures { result ≡ is_free self.now };

    /// A new opening begins, whose sound goes through the plan of its settings.
    fn begin(&mut self, tables: &Tables, settings: Settings)
        requires { CanOpen B.kind settings (path self.old) }
        ensures { begins tables.now settings self.old self.new };

    /// Goes on where another channel of the same device is. Takes no memory.
    fn resume_from(&mut self, other: &Self)
        requires { CanResumeChannel path is_free B.kind B.kept other.now self.old }
        ensures { ChannelResumes path stands_as B.kind B.mark other.now self.old self.new };
}
