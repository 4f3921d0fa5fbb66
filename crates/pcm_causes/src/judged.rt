//! Which part of a configuration has its fault and no other like it.

use crate::definition::WORK;
use crate::lines::line_end;
use pcm_config::{ConfigFault, ConfigKind, ConfigPlace, ConfigRefusal, config_of};
use std::alloc::Global;

// The text with a fault whose definition begins at a place. Where keys or files are wrong, more of them may stand after that, so
// it ends there. None where the search would take long, or memory runs out.
pub(crate) fn judged_text<'a>(
    alloc: Global,
    text: &'a [u8],
    begun: usize,
    refusal: ConfigRefusal,
) -> Option<&'a [u8]> {
    if refusal.kind != ConfigKind::Key && refusal.place != ConfigPlace::Files {
        return Some(text);
    }
    let mut left = WORK;
    let mut place = begun;
    for _ in begun..text.len() {
        place = line_end(text, place);
        if left < place {
            return None;
        }
        left -= place;
        if is_refused(alloc, text.get(..place)?, refusal) {
            return text.get(..place);
        }
    }
    None
}

// Whether a text is refused for this.
fn is_refused(alloc: Global, text: &[u8], refusal: ConfigRefusal) -> bool {
    match config_of(alloc, text) {
        Err(ConfigFault::Refused(told)) => told == refusal,
        _ => false,
    }
}
