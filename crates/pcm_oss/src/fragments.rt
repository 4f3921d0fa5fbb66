//! The fragments of a ring, and the number that asks for them.

ghost use Rattle.std.specs.Prelude.{◌≡◌, ◌≤◌};
ghost use Rattle.pcm_oss.specs.Fragments.{AreFragments, fragment_size, fragments_asked, fragments_told, ring_size};

/// The greatest ring of a channel, in bytes.
pub const RING_BYTES: u32 = 131072;

/// How the ring of a channel is cut: `count` fragments of 2 to the `log` bytes.
#[derive(Clone, Copy, Debug, PartialEq, Eq)]
pub struct Fragments {
    pub log: u32,
    pub count: u32,
}

/// The fragments of an opening: four of 4096 bytes.
pub const FRAGMENTS: Fragments = Fragments { log: 12, count: 4 };

impl Fragments {
    /// The fragments that a client asks for: the logarithm in the low 16 bits, moved into 4 to 16, and the number in the
    /// 15 bits above, at least two and as many as fit at most. 0 asks for all that fit.
    pub fn from_arg(arg: u32) -> Fragments
        ensures value { result ≡ fragments_asked arg }
        ensures limits { AreFragments result }
    {
        let log = (arg % 65536).min(16).max(4);
        let most = RING_BYTES >> log;
        let count = match arg / 65536 % 32768 {
            0 => most,
            asked => asked.max(2).min(most),
        };
        Fragments { log, count }
    }

    /// The number that asks for just these.
    pub fn to_arg(&self) -> u32
        requires { AreFragments self.now }
        ensures { result ≡ fragments_told self.now }
    {
        self.count * 65536 + self.log
    }

    /// The bytes of one fragment.
    pub fn bytes(&self) -> u32
        requires { self.now.log ≤ 16 }
        ensures { result ≡ fragment_size self.now }
    {
        1 << self.log
    }

    /// The bytes of the whole ring.
    pub fn size(&self) -> u32
        requires { AreFragments self.now }
        ensures { result ≡ ring_size self.now }
    {
        self.count * self.bytes()
    }
}
