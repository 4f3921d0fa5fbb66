//! Which channels a frame has, and in which order.

ghost use Rattle.std.specs.Prelude.{◌≡◌, ◌<◌, Some, slice_get};
ghost use Rattle.pcm_format.specs.Layouts.{channels_of, layout_of, positions_of};

/// The channels of a frame.
#[derive(Clone, Copy, Debug, PartialEq, Eq)]
pub enum Layout {
    /// One channel in the middle.
    One,
    /// Front left and front right.
    Two,
    /// Front left and right, back left and right.
    Four,
    /// 5.1: front left and right, front centre, low frequency effects, back left and right.
    Six,
    /// 7.1: as six channels, and side left and right.
    Eight,
}

/// Where the loudspeaker of a channel stands.
#[derive(Clone, Copy, Debug, PartialEq, Eq)]
pub enum Position {
    /// Middle.
    M,
    /// Front left.
    FL,
    /// Front right.
    FR,
    /// Front centre.
    FC,
    /// Low frequency effects.
    LFE,
    /// Back left.
    BL,
    /// Back right.
    BR,
    /// Side left.
    SL,
    /// Side right.
    SR,
}

// The positions of eight channels, of which the first six are those of six.
const SURROUND: &[Position] = &[
    Position::FL,
    Position::FR,
    Position::FC,
    Position::LFE,
    Position::BL,
    Position::BR,
    Position::SL,
    Position::SR,
];

impl Layout {
    /// The layout with this many channels.
    pub fn of(channels: u32) -> Option<Layout>
        ensures { result ≡ layout_of channels }
    {
        match channels {
            1 => Some(Layout::One),
            2 => Some(Layout::Two),
            4 => Some(Layout::Four),
            6 => Some(Layout::Six),
            8 => Some(Layout::Eight),
            _ => None,
        }
    }

    /// How many samples a frame has.
    pub fn channels(self) -> usize
        ensures { result ≡ channels_of self }
    {
        match self {
            Layout::One => 1,
            Layout::Two => 2,
            Layout::Four => 4,
            Layout::Six => 6,
            Layout::Eight => 8,
        }
    }

    /// The position of channel `at` of a frame.
    pub fn position(self, at: usize) -> Position
        requires { at < channels_of self }
        ensures { slice_get (positions_of self) at ≡ Some result }
    {
        self.positions()[at]
    }

    fn positions(self) -> &'static [Position]
        ensures { result.now ≡ positions_of self }
    {
        match self {
            Layout::One => &[Position::M],
            Layout::Two => &[Position::FL, Position::FR],
            Layout::Four => &[Position::FL, Position::FR, Position::BL, Position::BR],
            Layout::Six => &SURROUND[..6],
            Layout::Eight => SURROUND,
        }
    }
}
