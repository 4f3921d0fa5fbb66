//! What one number stands for: a number of 32 bits, a flag, a format, a layout, a state.

ghost use Rattle.std.specs.Prelude.{◌≡◌, IfSome, Some, Bool};
ghost use Rattle.pcm_format.specs.declared.format.Format.{Format};
ghost use Rattle.pcm_format.specs.declared.layout.Layout.{Layout};
ghost use Rattle.pcm_format.specs.Formats.{code_of};
ghost use Rattle.pcm_format.specs.Layouts.{channels_of};
ghost use Rattle.pcm_desk.specs.declared.run_state.RunState.{RunState};
ghost use Rattle.pcm_state.specs.OpeningRows.{flag, IsWord};
ghost use Rattle.pcm_state.specs.RecordRows.{run_code};

use pcm_desk::RunState;
use pcm_format::{Format, Layout};

/// The number, if it has 32 bits.
pub(crate) fn word(number: u64) -> Option<u32>
    ensures same { IfSome result (λ word. word ≡ number) }
    ensures some { IsWord number → result ≡ Some number }
{
    u32::try_from(number).ok()
}

/// The flag that a number is.
pub(crate) fn flag(number: u64) -> Option<bool>
    ensures same { IfSome result (λ set. flag set ≡ number) }
    ensures some { (set : Bool) → flag set ≡ number → result ≡ Some set }
{
    match number {
        0 => Some(false),
        1 => Some(true),
        _ => None,
    }
}

/// The format that has this code.
pub(crate) fn format(code: u64) -> Option<Format>
    ensures same { IfSome result (λ format. code_of format ≡ code) }
    ensures some { (format : Format) → code_of format ≡ code → result ≡ Some format }
{
    Format::from_code(word(code)?)
}

/// The layout with this many channels.
pub(crate) fn layout(channels: u64) -> Option<Layout>
    ensures same { IfSome result (λ layout. channels_of layout ≡ channels) }
    ensures some { (layout : Layout) → channels_of layout ≡ channels → result ≡ Some layout }
{
    Layout::of(word(channels)?)
}

/// A state as a number.
pub(crate) fn run_code(state: RunState) -> u64
    ensures { result ≡ run_code state }
{
    match state {
        RunState::Free => 0,
        RunState::Setup => 1,
        RunState::Running => 2,
    }
}

/// The state that a number is.
pub(crate) fn run_state(code: u64) -> Option<RunState>
    ensures same { IfSome result (λ state. run_code state ≡ code) }
    ensures some { (state : RunState) → run_code state ≡ code → result ≡ Some state }
{
    match code {
        0 => Some(RunState::Free),
        1 => Some(RunState::Setup),
        2 => Some(RunState::Running),
        _ => None,
    }
}
