//! A script that grows line by line.

ghost use Rattle.std.specs.Prelude.{◌≡◌, ◌+◌, ◌^◌, ◌<◌, ◌≤◌, length, OnOk};
ghost use Rattle.pcm_desk.specs.declared.limits.TheConstants.{EVENTS, WRITE_BYTES};
ghost use Rattle.pcm_desk.specs.Device.{unfiltered};
ghost use Rattle.pcm_script.specs.Answers.{Leaves};
ghost use Rattle.pcm_script.specs.Collecting.{frames_asked, has_room, own_bytes, script_with, with_event};
ghost use Rattle.pcm_script.specs.Lines.{empty_script};

use crate::fault::LineFault;
use crate::line_event::LineEvent;
use crate::{Events, Script, ScriptKind};
use pcm_desk::{DEVICE_BYTES, Device, EVENTS};
use pcm_format::Bytes;
use pcm_oss::Event;
use std::alloc::{AllocError, Global};
use std::marker::Model;

// What the lines so far gave. In a clause it is a script.
#[derive(Drop)]
pub(crate) struct Draft {
    events: Vec<Event>,
    inline_bytes: Vec<u8>,
    device_frames: u32,
}

impl Model for Draft {
    ghost use Rattle.std.specs.Prelude.{◌*◌, ◌≤◌, length};
    ghost use Rattle.pcm_desk.specs.declared.limits.TheConstants.{WRITE_BYTES};
    ghost use Rattle.pcm_script.specs.declared.script.Script.{Script as Read};

    ghost Value = { Read };

    ghost view = { λ d. record {
      events = d.events.items;
      inline_bytes = d.inline_bytes.items;
      device_frames = d.device_frames;
    } };

    ghost invariant = { λ d. length d.inline_bytes.items ≤ WRITE_BYTES * length d.events.items };
}

impl Draft {
    pub(crate) fn new(alloc: Global) -> Draft
        ensures { result ≡ empty_script }
    {
        Draft {
            events: Vec::new(alloc),
            inline_bytes: Vec::new(alloc),
            device_frames: 0,
        }
    }

    pub(crate) fn into_script(self) -> Script
        ensures { result ≡ self }
    {
        Script {
            events: Events::new(self.events),
            inline_bytes: Bytes::new(self.inline_bytes),
            device_frames: self.device_frames,
        }
    }

    // Adds the event of a line, where the limits allow it.
    pub(crate) fn add(&mut self, device: &Device, line: &LineEvent) -> Result<(), LineFault>
        requires { length (own_bytes line.now) ≤ WRITE_BYTES }
        ensures { Leaves self.new result (with_event (unfiltered device.now) self.old line.now) }
    {
        if !self.has_room(device, line.frames()) {
            return Err(LineFault::Refused(ScriptKind::Long));
        }
        Ok(self.push(line)?)
    }

    // Adds the event of a line.
    fn push(&mut self, line: &LineEvent) -> Result<(), AllocError>
        requires bytes { length (own_bytes line.now) ≤ WRITE_BYTES }
        requires events { length self.old.events < EVENTS }
        requires frames { self.old.device_frames + frames_asked line.now < 2 ^ 32 }
        ensures { OnOk result (self.new ≡ script_with self.old line.now) }
    {
        let place = self.inline_bytes.len() as u32;
        self.events.push(line.event_at(place))?;
        self.inline_bytes.extend_from_slice(line.bytes())?;
        self.device_frames += line.frames();
        Ok(())
    }

    // Whether there is room for one event more, which takes `frames` frames.
    fn has_room(&self, device: &Device, frames: u32) -> bool
        ensures { result ≡ has_room (unfiltered device.now) self.now frames }
    {
        let frames = u64::from(self.device_frames) + u64::from(frames);
        self.events.len() < EVENTS && frames * device.settings.frame_bytes() as u64 <= DEVICE_BYTES
    }
}
