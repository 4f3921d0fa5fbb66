//! Reads a script, line by line.

ghost use Rattle.std.specs.Prelude.{◌≡◌, ◌<◌, ◌≤◌, length, IfOk};
ghost use Rattle.pcm_desk.specs.declared.limits.TheConstants.{DEVICE_BYTES, EVENTS};
ghost use Rattle.pcm_desk.specs.Device.{unfiltered};
ghost use Rattle.pcm_desk.specs.Events.{all_frames_taken};
ghost use Rattle.pcm_script.specs.Answers.{Asks, Leaves, ReadsScript};
ghost use Rattle.pcm_script.specs.Collecting.{with_text};
ghost use Rattle.pcm_script.specs.Commands.{line_event};
ghost use Rattle.pcm_script.specs.Lines.{AllFit, bytes_taken, script_read};
ghost use Rattle.pcm_script.specs.Words.{words_of};

use crate::command::line_event;
use crate::draft::Draft;
use crate::fault::LineFault;
use crate::line_event::LineEvent;
use crate::lines::first_line;
use crate::listed::Listed;
use crate::words::first_words;
use crate::{Refusal, Script, ScriptFault, ScriptKind, TEXT_BYTES};
use pcm_desk::Device;
use pcm_wave::DataFile;
use std::alloc::Global;

/// Reads a script for a device and data files, whose bodies its lines may send: all its events, or its first line that is
/// refused.
pub fn script_of(
    alloc: Global,
    bytes: &[u8],
    device: &Device,
    files: &[DataFile],
) -> Result<Script, ScriptFault>
    requires block { 0 < device.now.block_frames }
    requires ring { device.now.block_frames ≤ device.now.ring_frames }

    // Only whether memory runs out is open: else the text, the device and the files determine the result.
    ensures read { ReadsScript result (script_read (unfiltered device.now) files.now bytes.now) }

    // What a script keeps.
    ensures fits { IfOk result (λ script. AllFit (unfiltered device.now) files.now script) }
    ensures counts { IfOk result (λ script. length script.events ≤ EVENTS) }
    ensures frames { IfOk result (λ script. bytes_taken (unfiltered device.now) script ≤ DEVICE_BYTES) }
    ensures sum { IfOk result (λ script. script.device_frames ≡ all_frames_taken script.events) }
{
    script_with(alloc, bytes, device, &Listed::of(files))
}

// Reads a script with these files.
#[tactic(auto, unfolding(crate::specs::Lines::script_read))]
fn script_with(
    alloc: Global,
    bytes: &[u8],
    device: &Device,
    files: &Listed<'_>,
) -> Result<Script, ScriptFault>
    requires block { 0 < device.now.block_frames }
    requires ring { device.now.block_frames ≤ device.now.ring_frames }
    ensures read { ReadsScript result (script_read (unfiltered device.now) files.now.all.now bytes.now) }
    ensures fits { IfOk result (λ script. AllFit (unfiltered device.now) files.now.all.now script) }
    ensures counts { IfOk result (λ script. length script.events ≤ EVENTS) }
    ensures frames { IfOk result (λ script. bytes_taken (unfiltered device.now) script ≤ DEVICE_BYTES) }
    ensures sum { IfOk result (λ script. script.device_frames ≡ all_frames_taken script.events) }
{
    if bytes.len() > TEXT_BYTES {
        let kind = ScriptKind::Long;
        return Err(ScriptFault::Refused(Refusal { line: 0, kind }));
    }
    let mut draft = Draft::new(alloc);
    let mut line = 1;
    let mut rest = Some(bytes);
    while let Some(text) = rest {
        let (first, behind) = first_line(text);
        match add_line(alloc, &mut draft, device, files, first) {
            Ok(()) => line += 1,
            Err(LineFault::Refused(kind)) => {
                return Err(ScriptFault::Refused(Refusal { line, kind }));
            }
            Err(LineFault::Memory) => return Err(ScriptFault::Memory),
        }
        rest = behind;
    }
    Ok(draft.into_script())
}

// Adds what a line asks for.
fn add_line(
    alloc: Global,
    draft: &mut Draft,
    device: &Device,
    files: &Listed<'_>,
    text: &[u8],
) -> Result<(), LineFault>
    ensures { Leaves draft.new result (with_text (unfiltered device.now) files.now.all.now draft.old text.now) }
{
    match event_of(alloc, device, files, text)? {
        None => Ok(()),
        Some(line) => draft.add(device, &line),
    }
}

// What a line asks for.
fn event_of(
    alloc: Global,
    device: &Device,
    files: &Listed<'_>,
    text: &[u8],
) -> Result<Option<LineEvent>, LineFault>
    ensures { Asks result (line_event (unfiltered device.now) files.now.all.now (words_of text.now)) }
{
    let words = first_words(text);
    line_event(alloc, device, files, words.as_slice())
}
