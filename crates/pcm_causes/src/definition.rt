//! Which definition of a configuration brings its fault.

ghost use Rattle.std.specs.Prelude.{◌≢◌, Err, IfSome, IsTrue, take};
ghost use Rattle.pcm_config.specs.Configs.{config_read};

use crate::lines::line_before;
use crate::own_key::has_own_key;
use pcm_config::{ConfigFault, ConfigKind, ConfigPlace, ConfigRefusal, config_of};
use std::alloc::Global;

// The bytes that are read for a search at most. It reads the text again for each line after the one that it finds, and a text of
// many keys takes some 150 nanoseconds a byte: a second and a quarter.
pub(crate) const WORK: usize = 8388608;

/// Where the definition begins with which a configuration has a fault: the text before it is read, without that fault, and the
/// text up to the end of any later line has it or isn't read. The definition of a filter or a section has all of its keys.
/// None where the search would take long, or memory runs out.
pub fn definition_at(alloc: Global, text: &[u8], refusal: ConfigRefusal) -> Option<usize>
    ensures without { IfSome result (λ place. config_read (take place text.now) ≢ Err refusal) }
{
    let mut left = WORK;
    let mut place = text.len();
    for _ in 0..text.len() {
        place = line_before(text, place);
        if left < place {
            return None;
        }
        left -= place;
        if is_without(alloc, text.get(..place)?, refusal)? {
            return Some(place);
        }
    }
    None
}

// Whether a text is read as far as the judgement that a refusal reports, and doesn't have that fault.
fn is_without(alloc: Global, text: &[u8], refusal: ConfigRefusal) -> Option<bool>
    ensures { IfSome result (λ holds. IsTrue holds → config_read text.now ≢ Err refusal) }
{
    match config_of(alloc, text) {
        Ok(_) => Some(!has_own_key(alloc, text, refusal)),
        Err(ConfigFault::Refused(told)) => {
            let is_read = told.kind != ConfigKind::Toml && !hides(told, refusal);
            Some(told != refusal && is_read && !has_own_key(alloc, text, refusal))
        }
        Err(ConfigFault::Memory) => None,
    }
}

// Whether a refusal can be reported in place of another that is there too, and be gone further down: a filter misses keys until all
// of them were read, and is judged before what comes after it; so is a section.
fn hides(told: ConfigRefusal, refusal: ConfigRefusal) -> bool {
    match (told.kind, told.place) {
        (ConfigKind::Missing, ConfigPlace::Tables) => is_judged_behind_filters(refusal),
        (ConfigKind::Missing, _) => is_judged_behind_sections(refusal),
        _ => false,
    }
}

// Whether a refusal is judged after what a filter misses.
fn is_judged_behind_filters(refusal: ConfigRefusal) -> bool {
    match refusal.place {
        ConfigPlace::Tables => is_of_a_value(refusal.kind),
        ConfigPlace::Eq => refusal.kind != ConfigKind::Key,
        _ => is_of_the_whole(refusal.kind),
    }
}

// Whether a refusal is judged after what a section misses.
fn is_judged_behind_sections(refusal: ConfigRefusal) -> bool {
    match refusal.place {
        ConfigPlace::Eq => is_of_a_value(refusal.kind),
        _ => is_of_the_whole(refusal.kind),
    }
}

// Whether a kind is about the value at a key of a filter or a section.
fn is_of_a_value(kind: ConfigKind) -> bool {
    matches!(
        kind,
        ConfigKind::Kind | ConfigKind::Range | ConfigKind::Shape | ConfigKind::Coef
    )
}

// Whether a kind is judged last.
fn is_of_the_whole(kind: ConfigKind) -> bool {
    matches!(kind, ConfigKind::Container | ConfigKind::Capture)
}
