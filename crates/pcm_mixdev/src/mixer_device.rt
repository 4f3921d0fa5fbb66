//! What the mixer device holds: it is asked for volumes, and gives gains.

ghost use Rattle.std.specs.Prelude.{◌≡◌, ◌<◌, ◌≤◌, All, IfSome, IsTrue, is_some};
ghost use Rattle.std.specs.List.{list_all};
ghost use Rattle.pcm_feeder.specs.Limits.{IsGain};
ghost use Rattle.pcm_oss.specs.Volumes.{is_volume};
ghost use Rattle.pcm_oss.specs.declared.event.TheConstants.{SLOTS};

use crate::acceptance::may_ask;
use pcm_feeder::Gain;
use pcm_oss::{Answer, Errno, MixRequest, SLOTS, VOLUME, gain_of, is_volume};
use std::marker::Model;

/// The volume of all that is mixed, and of each slot its volume and whether it is muted. They are a slot's own, and not of the channel that
/// has it: they stay when that is closed.
#[derive(Debug, Drop)]
pub struct MixDev {
    master: u32,
    volumes: [u32; SLOTS],
    muted: [bool; SLOTS],
}

impl Model for MixDev {
    ghost use Rattle.std.specs.Prelude.{IsTrue, All};
    ghost use Rattle.pcm_oss.specs.Volumes.{is_volume};
    ghost use Rattle.pcm_mixdev.specs.Mixers.{Levels};

    ghost Value = { Levels };

    ghost view = { λ mixer. record { master = mixer.master; volumes = mixer.volumes; muted = mixer.muted } };

    ghost invariant = { λ mixer. IsTrue (is_volume mixer.master) × All (λ volume. IsTrue (is_volume volume)) mixer.volumes };
}

impl MixDev {
    ghost use Rattle.pcm_mixdev.specs.Mixers.{are_volumes, asked_mixer, full_mixer, master_gain, may_ask, mixer_after, mixer_reply, slot_gain, told_mixer};

    /// All is at full volume, and no slot is muted.
    pub fn new() -> MixDev
        ensures { result ≡ full_mixer }
    {
        MixDev {
            master: VOLUME,
            volumes: [VOLUME; SLOTS],
            muted: [false; SLOTS],
        }
    }

    /// Holds these volumes, of all that is mixed and of each slot, and these mutes, if each volume is one.
    pub fn with_levels(master: u32, volumes: [u32; SLOTS], muted: [bool; SLOTS]) -> Option<MixDev>
        ensures made { IfSome result (λ made. made ≡ record { master = master; volumes = volumes; muted = muted }) }
        ensures some { is_some result ≡ are_volumes master volumes }
    {
        if is_volume(master) && are_volumes(&volumes) {
            Some(MixDev {
                master,
                volumes,
                muted,
            })
        } else {
            None
        }
    }

    /// The volume of all that is mixed.
    pub fn volume(&self) -> u32
        ensures value { result ≡ self.now.master }
        ensures valid { IsTrue (is_volume result) }
    {
        self.master
    }

    /// The volume of each slot.
    pub fn volumes(&self) -> [u32; SLOTS]
        ensures value { result ≡ self.now.volumes }
        ensures valid { All (λ volume. IsTrue (is_volume volume)) result }
    {
        self.volumes
    }

    /// Whether each slot is muted.
    pub fn muted(&self) -> [bool; SLOTS]
        ensures { result ≡ self.now.muted }
    {
        self.muted
    }

    /// Holds the volumes and mutes that another one holds.
    pub fn copy_from(&mut self, other: &MixDev)
        ensures { self.new ≡ other.now }
    {
        self.master = other.master;
        self.volumes = other.volumes;
        self.muted = other.muted;
    }

    /// A request, where there are `slots` slots: those that play, then those of mapped areas. A volume that isn't one, a slot that isn't
    /// among these, and a mute that is neither 0 nor 1 are invalid, and change nothing.
    pub fn ask(&mut self, slots: u32, request: MixRequest) -> Result<Answer, Errno>
        requires { slots ≤ SLOTS }
        ensures answer { result ≡ mixer_reply slots request self.old }
        ensures mixer { self.new ≡ mixer_after slots request self.old }
    {
        if !may_ask(slots, request) {
            return Err(Errno::Inval);
        }
        Ok(self.asked(request))
    }

    // An accepted request.
    fn asked(&mut self, request: MixRequest) -> Answer
        requires { IsTrue (may_ask SLOTS request) }
        ensures answer { result ≡ told_mixer request self.old }
        ensures mixer { self.new ≡ asked_mixer request self.old }
    {
        match request {
            MixRequest::SetMaster(volume) => {
                self.master = volume;
                Answer::Number(volume)
            }
            MixRequest::GetMaster => Answer::Number(self.master),
            MixRequest::SetSlot { slot, volume } => {
                self.volumes[slot as usize] = volume;
                Answer::Number(volume)
            }
            MixRequest::GetSlot(slot) => Answer::Number(self.volumes[slot as usize]),
            MixRequest::Mute { slot, on } => {
                self.muted[slot as usize] = on == 1;
                Answer::Done
            }
        }
    }

    /// The gain of a slot, which is nothing while it is muted.
    pub fn slot_gain(&self, slot: usize) -> Gain
        requires { slot < SLOTS }
        ensures value { result ≡ slot_gain self.now slot }
        ensures limits { IsGain result }
    {
        if self.muted[slot] {
            return Gain { left: 0, right: 0 };
        }
        gain_of(self.volumes[slot])
    }

    /// The gain of all that is mixed.
    pub fn master(&self) -> Gain
        ensures value { result ≡ master_gain self.now }
        ensures limits { IsGain result }
    {
        gain_of(self.master)
    }
}

// Whether each of these is a volume.
fn are_volumes(volumes: &[u32]) -> bool
    ensures { result ≡ list_all is_volume volumes.now }
{
    for volume in volumes {
        if !is_volume(*volume) {
            return false;
        }
    }
    true
}
