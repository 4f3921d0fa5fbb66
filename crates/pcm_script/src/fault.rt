//! Why a script is refused.

ghost use Rattle.std.specs.Prelude.{◌≡◌};

use std::alloc::AllocError;
use thiserror::Error;

/// What is wrong with a line. Kinds are judged in this order, and words from left to right.
#[derive(Clone, Copy, Debug, PartialEq, Eq)]
pub enum ScriptKind {
    /// The first word is no command.
    Word,
    /// The command doesn't have this many words.
    Count,
    /// There is no number where the command wants one.
    Number,
    /// A direction, a format, a file or a request isn't one.
    Name,
    /// The bytes of a write or a poke are no pairs of hexadecimal digits, or too many.
    Hex,
    /// A number is outside its set.
    Range,
    /// The text, the events or the device's bytes pass their limit.
    Long,
}

impl ScriptKind {
    ghost use Rattle.pcm_script.specs.Kinds.{kind_word};

    /// The word that names the kind.
    pub fn word(self) -> &'static str
        ensures { result.now ≡ kind_word self }
    {
        match self {
            ScriptKind::Word => "word",
            ScriptKind::Count => "count",
            ScriptKind::Number => "number",
            ScriptKind::Name => "name",
            ScriptKind::Hex => "hex",
            ScriptKind::Range => "range",
            ScriptKind::Long => "long",
        }
    }
}

/// The first line that is refused, counted from 1, and why. Line 0 is the whole text.
#[derive(Clone, Copy, Debug, PartialEq, Eq)]
pub struct Refusal {
    pub line: u32,
    pub kind: ScriptKind,
}

/// Why a text gives no script.
#[derive(Debug, Drop, Error)]
pub enum ScriptFault {
    /// The text isn't a script.
    #[error("the script is refused")]
    Refused(Refusal),
    /// Memory ran out.
    #[error("out of memory")]
    Memory,
}

// Why a line isn't added to a script.
#[derive(Drop)]
pub(crate) enum LineFault {
    Refused(ScriptKind),
    Memory,
}

impl From<ScriptKind> for LineFault {
    ghost use Rattle.pcm_script.specs.declared.fault.LineFault.TheVariants.{Refused};

    ghost from_gives = { λ kind fault. fault ≡ Refused kind };

    fn from(kind: ScriptKind) -> LineFault {
        LineFault::Refused(kind)
    }
}

impl From<AllocError> for LineFault {
    ghost use Rattle.pcm_script.specs.declared.fault.LineFault.TheVariants.{Memory};

    ghost from_gives = { λ _ fault. fault ≡ Memory };

    fn from(_: AllocError) -> LineFault {
        LineFault::Memory
    }
}
