//! Why a configuration is refused.

ghost use Rattle.std.specs.Prelude.{◌≡◌};
ghost use Rattle.pcm_config.specs.declared.fault.ConfigFault.TheVariants.{Refused};
ghost use Rattle.pcm_config.specs.Judgements.{must_hold, required};

use crate::ConfigPlace;
use std::alloc::{AllocError, AllocFailed};
use thiserror::Error;

/// What is wrong with a configuration.
#[derive(Clone, Copy, Debug, PartialEq, Eq)]
pub enum ConfigKind {
    /// The text passes its limit.
    Long,
    /// The text is no TOML.
    Toml,
    /// A table has a key that it may not have.
    Key,
    /// A value is no table, no array, no text or no whole number, where one is wanted.
    Kind,
    /// A number is outside its set.
    Range,
    /// A text is outside its set.
    Name,
    /// There are more filters or sections than there may be.
    Count,
    /// A filter lacks its shift or its rows, or one rate where it has the other; a section lacks one of its keys.
    Missing,
    /// The rows of a filter are too few or too many, too short or too long, or differ in length.
    Shape,
    /// A coefficient is outside its set.
    Coef,
    /// A wave can't have frames of the device.
    Container,
    /// The file that is recorded from isn't among the files.
    Capture,
}

impl ConfigKind {
    ghost use Rattle.pcm_config.specs.Places.{config_kind_word};

    /// The word that names the kind.
    pub fn word(self) -> &'static str
        ensures { result.now ≡ config_kind_word self }
    {
        match self {
            ConfigKind::Long => "long",
            ConfigKind::Toml => "toml",
            ConfigKind::Key => "key",
            ConfigKind::Kind => "kind",
            ConfigKind::Range => "range",
            ConfigKind::Name => "name",
            ConfigKind::Count => "count",
            ConfigKind::Missing => "missing",
            ConfigKind::Shape => "shape",
            ConfigKind::Coef => "coef",
            ConfigKind::Container => "container",
            ConfigKind::Capture => "capture",
        }
    }
}

/// The first fault of a configuration, and where it stands.
#[derive(Clone, Copy, Debug, PartialEq, Eq)]
pub struct ConfigRefusal {
    pub kind: ConfigKind,
    pub place: ConfigPlace,
}

/// Why a text gives no configuration.
#[derive(Debug, Drop, Error)]
pub enum ConfigFault {
    /// The text isn't a configuration.
    #[error("the configuration is refused")]
    Refused(ConfigRefusal),
    /// Memory ran out.
    #[error("out of memory")]
    Memory,
}

// A refusal, for a kind of fault at a place.
pub(crate) fn refused(kind: ConfigKind, place: ConfigPlace) -> ConfigFault
    ensures { result ≡ Refused (record { kind = kind; place = place }) }
{
    ConfigFault::Refused(ConfigRefusal { kind, place })
}

// What must hold, else it is refused.
pub(crate) fn must_hold(
    holds: bool,
    kind: ConfigKind,
    place: ConfigPlace,
) -> Result<(), ConfigRefusal>
    ensures { result ≡ must_hold holds kind place }
{
    if holds {
        Ok(())
    } else {
        Err(ConfigRefusal { kind, place })
    }
}

// What must be there, else it is refused.
pub(crate) fn required<T: Drop>(
    kind: ConfigKind,
    place: ConfigPlace,
    found: Option<T>,
) -> Result<T, ConfigRefusal>
    ensures { result ≡ required kind place found }
{
    match found {
        Some(value) => Ok(value),
        None => Err(ConfigRefusal { kind, place }),
    }
}

impl From<ConfigRefusal> for ConfigFault {
    ghost use Rattle.pcm_config.specs.declared.fault.ConfigFault.TheVariants.{Refused};

    ghost from_gives = { λ refusal fault. fault ≡ Refused refusal };

    fn from(refusal: ConfigRefusal) -> ConfigFault {
        ConfigFault::Refused(refusal)
    }
}

impl From<AllocError> for ConfigFault {
    ghost use Rattle.pcm_config.specs.declared.fault.ConfigFault.TheVariants.{Memory};

    ghost from_gives = { λ _ fault. fault ≡ Memory };

    fn from(_: AllocError) -> ConfigFault {
        ConfigFault::Memory
    }
}

impl<T: Drop> From<AllocFailed<T>> for ConfigFault {
    ghost use Rattle.pcm_config.specs.declared.fault.ConfigFault.TheVariants.{Memory};

    ghost from_gives = { λ _ fault. fault ≡ Memory };

    fn from(_: AllocFailed<T>) -> ConfigFault {
        ConfigFault::Memory
    }
}
