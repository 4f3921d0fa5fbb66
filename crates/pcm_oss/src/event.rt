//! The events of a script, each an indivisible step.

use crate::{MixRequest, Request};
use pcm_format::Settings;
use pcm_wave::Source;

/// Which way sound goes through a descriptor.
#[derive(Clone, Copy, Debug, Default, PartialEq, Eq)]
pub enum Way {
    /// From the client to the device.
    #[default]
    Play,
    /// From the device to the client.
    Record,
    /// From an area, in which the client writes anywhere at any time, to the device.
    Map,
}

/// How many clients of each way a device has at most.
pub const SLOTS: usize = 16;

/// One step of a run: a client's call, or the device's interrupt.
#[derive(Clone, Copy, Debug, PartialEq, Eq)]
pub enum Event {
    /// A client opens a descriptor with settings of its own.
    Open {
        fd: u8,
        way: Way,
        settings: Settings,
    },
    /// A client writes `len` bytes of a source, from its byte `at` on.
    Write {
        fd: u8,
        source: Source,
        at: u32,
        len: u32,
    },
    /// A client writes `len` bytes of its lines, from their byte `at` on, into its area, from the area's byte `offset` on.
    Poke {
        fd: u8,
        offset: u32,
        at: u32,
        len: u32,
    },
    /// A client reads at most `len` bytes of what was recorded.
    Read {
        fd: u8,
        len: u32,
    },
    /// A client asks something of its channel.
    Ioctl {
        fd: u8,
        request: Request,
    },
    /// A client's channel becomes a member of a group: of a new one by 0, or of one that is there. Members start together.
    Join {
        fd: u8,
        group: u32,
    },
    /// A client starts all members of a group.
    StartGroup {
        fd: u8,
        group: u32,
    },
    /// A client closes a descriptor.
    Close {
        fd: u8,
    },
    /// The mixer device is asked something. It needs no descriptor.
    Mixer {
        request: MixRequest,
    },
    /// An interrupt: the device takes `frames` frames out of its ring and wants as many new ones.
    Intr {
        frames: u32,
    },
}
