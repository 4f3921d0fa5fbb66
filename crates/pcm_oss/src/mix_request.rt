//! What is asked of the mixer device, which needs no descriptor.

/// A request of the mixer device. Volumes are numbers as those of a channel, and slots have the numbers that opens return.
#[derive(Clone, Copy, Debug, PartialEq, Eq)]
pub enum MixRequest {
    /// `SOUND_MIXER_WRITE_VOLUME`: the volume of all that is mixed.
    SetMaster(u32),
    /// `SOUND_MIXER_READ_VOLUME`: what it is.
    GetMaster,
    /// `SOUND_MIXER_WRITE_PCM`, of one slot: the volume of what is heard of it, beside the one of its channel.
    SetSlot { slot: u32, volume: u32 },
    /// `SOUND_MIXER_READ_PCM`, of one slot: what it is.
    GetSlot(u32),
    /// `SOUND_MIXER_WRITE_MUTE`, of one slot: it is not heard from now on by 1, and is again by 0.
    Mute { slot: u32, on: u32 },
}
