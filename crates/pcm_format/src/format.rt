//! The fourteen integer sample formats.

ghost use Rattle.std.specs.Prelude.{◌≡◌, ◌*◌};
ghost use Rattle.pcm_format.specs.Formats.{bits_of, bytes_of, code_of, name_of, is_big_endian, is_signed, format_named, format_with_code};

/// How the samples of a stream are spelled as bytes: signed or unsigned, little-endian or big-endian, packed.
#[derive(Clone, Copy, Debug, PartialEq, Eq)]
pub enum Format {
    U8,
    S8,
    S16Le,
    S16Be,
    U16Le,
    U16Be,
    S24Le,
    S24Be,
    U24Le,
    U24Be,
    S32Le,
    S32Be,
    U32Le,
    U32Be,
}

// All formats, in the order of their table.
const FORMATS: [Format; 14] = [
    Format::U8,
    Format::S8,
    Format::S16Le,
    Format::S16Be,
    Format::U16Le,
    Format::U16Be,
    Format::S24Le,
    Format::S24Be,
    Format::U24Le,
    Format::U24Be,
    Format::S32Le,
    Format::S32Be,
    Format::U32Le,
    Format::U32Be,
];

impl Format {
    /// The format that has this code in a request.
    pub fn from_code(code: u32) -> Option<Format>
        ensures { result ≡ format_with_code code }
    {
        FORMATS.iter().copied().find(|format| format.code() == code)
    }

    /// The format that this word names.
    pub fn from_name(word: &[u8]) -> Option<Format>
        ensures { result ≡ format_named word.now }
    {
        FORMATS.iter().copied().find(|format| format.name() == word)
    }

    /// The bits of a sample.
    pub fn bits(self) -> u32
        ensures { result ≡ bits_of self }
    {
        8 * self.bytes() as u32
    }

    /// The bytes of a sample.
    pub fn bytes(self) -> usize
        ensures { result ≡ bytes_of self }
    {
        match self {
            Format::U8 | Format::S8 => 1,
            Format::S16Le | Format::S16Be | Format::U16Le | Format::U16Be => 2,
            Format::S24Le | Format::S24Be | Format::U24Le | Format::U24Be => 3,
            Format::S32Le | Format::S32Be | Format::U32Le | Format::U32Be => 4,
        }
    }

    /// The number that stands for the format in a request.
    pub fn code(self) -> u32
        ensures { result ≡ code_of self }
    {
        match self {
            Format::U8 => 0x8,
            Format::S8 => 0x40,
            Format::S16Le => 0x10,
            Format::S16Be => 0x20,
            Format::U16Le => 0x80,
            Format::U16Be => 0x100,
            Format::S24Le => 0x10000,
            Format::S24Be => 0x20000,
            Format::U24Le => 0x40000,
            Format::U24Be => 0x80000,
            Format::S32Le => 0x1000,
            Format::S32Be => 0x2000,
            Format::U32Le => 0x4000,
            Format::U32Be => 0x8000,
        }
    }

    /// The word that names the format.
    pub fn name(self) -> &'static [u8]
        ensures { result.now ≡ name_of self }
    {
        match self {
            Format::U8 => b"u8",
            Format::S8 => b"s8",
            Format::S16Le => b"s16le",
            Format::S16Be => b"s16be",
            Format::U16Le => b"u16le",
            Format::U16Be => b"u16be",
            Format::S24Le => b"s24le",
            Format::S24Be => b"s24be",
            Format::U24Le => b"u24le",
            Format::U24Be => b"u24be",
            Format::S32Le => b"s32le",
            Format::S32Be => b"s32be",
            Format::U32Le => b"u32le",
            Format::U32Be => b"u32be",
        }
    }

    // Whether the highest byte comes first.
    pub(crate) fn is_big_endian(self) -> bool
        ensures { result ≡ is_big_endian self }
    {
        matches!(
            self,
            Format::S16Be
                | Format::U16Be
                | Format::S24Be
                | Format::U24Be
                | Format::S32Be
                | Format::U32Be
        )
    }

    // Whether the number is two's complement. Else the midpoint of the range is silence.
    pub(crate) fn is_signed(self) -> bool
        ensures { result ≡ is_signed self }
    {
        matches!(
            self,
            Format::S8
                | Format::S16Le
                | Format::S16Be
                | Format::S24Le
                | Format::S24Be
                | Format::S32Le
                | Format::S32Be
        )
    }
}
