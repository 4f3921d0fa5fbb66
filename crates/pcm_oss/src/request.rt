//! What a client can ask of its channel: the requests of the Open Sound System's `ioctl`.

/// A request, with its argument where it has one.
#[derive(Clone, Copy, Debug, PartialEq, Eq)]
pub enum Request {
    /// `SNDCTL_DSP_SETFMT`: a sample format by its code, or 0 to ask for the present one.
    SetFmt(u32),
    /// `SNDCTL_DSP_SPEED`: frames per second, or 0 to ask for them.
    Speed(u32),
    /// `SNDCTL_DSP_CHANNELS`: a number of channels, or 0 to ask for it.
    Channels(u32),
    /// `SNDCTL_DSP_GETFMTS`: the codes of all formats.
    GetFmts,
    /// `SNDCTL_DSP_GETCAPS`: what the device can do.
    GetCaps,
    /// `SNDCTL_DSP_GETBLKSIZE`: the bytes of a fragment.
    GetBlkSize,
    /// `SNDCTL_DSP_SETFRAGMENT`: the fragments of the ring, as `Fragments::from_arg` reads them.
    SetFragment(u32),
    /// `SNDCTL_DSP_GETOSPACE`: the bytes that a write would take now.
    GetOSpace,
    /// `SNDCTL_DSP_GETISPACE`: the bytes that a read would get now.
    GetISpace,
    /// `SNDCTL_DSP_GETOPTR`: how far the channel has played.
    GetOPtr,
    /// `SNDCTL_DSP_GETIPTR`: how far the channel has recorded.
    GetIPtr,
    /// `SNDCTL_DSP_GETODELAY`: the bytes that wait in the channel's ring.
    GetODelay,
    /// `SNDCTL_DSP_GETERROR`: the shortages since the last one.
    GetError,
    /// `SNDCTL_DSP_SETTRIGGER`: whether the channel may start, by the bit of its way.
    SetTrigger(u32),
    /// `SNDCTL_DSP_GETTRIGGER`: the bit of its way, where it may start.
    GetTrigger,
    /// `SNDCTL_DSP_SETPLAYVOL`: the volume, as `gain_of` reads it.
    SetPlayVol(u32),
    /// `SNDCTL_DSP_GETPLAYVOL`: the volume.
    GetPlayVol,
    /// `SNDCTL_DSP_POST`: start now.
    Post,
    /// `SNDCTL_DSP_SYNC`: drain. No more is written for now, and what waits is played.
    Sync,
    /// `SNDCTL_DSP_HALT`: drop what waits.
    Halt,
}
