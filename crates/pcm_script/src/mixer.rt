//! What is asked of the mixer device.

ghost use Rattle.std.specs.Prelude.{◌≡◌};
ghost use Rattle.pcm_script.specs.Commands.{asked_alone, asked_of_one, asked_of_two, control_in, mixer_line, setting_in};
ghost use Rattle.pcm_script.specs.Words.{lent};

use crate::ScriptKind;
use crate::names::Control;
use crate::number::number_within;
use pcm_oss::{Event, MixRequest};

// What a line asks whose first word is that of the mixer device.
#[tactic(auto, unfolding(crate::specs::Commands::mixer_line))]
pub(crate) fn mixer_line(arguments: &[&[u8]]) -> Result<Event, ScriptKind>
    ensures { result ≡ mixer_line (lent arguments.now) }
{
    let request = match arguments {
        [c] => asked_alone(control_in(c)?)?,
        [c, a] => asked_of_one(control_in(c)?, a)?,
        [c, s, a] => asked_of_two(control_in(c)?, s, a)?,
        _ => return Err(ScriptKind::Count),
    };
    Ok(Event::Mixer { request })
}

fn control_in(word: &[u8]) -> Result<Control, ScriptKind>
    ensures { result ≡ control_in word.now }
{
    Control::from_name(word).ok_or(ScriptKind::Name)
}

// A slot, a volume, or whether a slot is muted.
fn setting_in(word: &[u8]) -> Result<u32, ScriptKind>
    ensures { result ≡ setting_in word.now }
{
    number_within(0, u32::MAX, word)
}

// What is asked without a number.
fn asked_alone(control: Control) -> Result<MixRequest, ScriptKind>
    ensures { result ≡ asked_alone control }
{
    match control {
        Control::Master => Ok(MixRequest::GetMaster),
        Control::Slot | Control::Mute => Err(ScriptKind::Count),
    }
}

// What is asked with one number.
fn asked_of_one(control: Control, number: &[u8]) -> Result<MixRequest, ScriptKind>
    ensures { result ≡ asked_of_one control number.now }
{
    match control {
        Control::Master => Ok(MixRequest::SetMaster(setting_in(number)?)),
        Control::Slot => Ok(MixRequest::GetSlot(setting_in(number)?)),
        Control::Mute => Err(ScriptKind::Count),
    }
}

// What is asked with two numbers.
fn asked_of_two(control: Control, s: &[u8], a: &[u8]) -> Result<MixRequest, ScriptKind>
    ensures { result ≡ asked_of_two control s.now a.now }
{
    match control {
        Control::Master => Err(ScriptKind::Count),
        Control::Slot => {
            let slot = setting_in(s)?;
            let volume = setting_in(a)?;
            Ok(MixRequest::SetSlot { slot, volume })
        }
        Control::Mute => {
            let slot = setting_in(s)?;
            let on = setting_in(a)?;
            Ok(MixRequest::Mute { slot, on })
        }
    }
}
