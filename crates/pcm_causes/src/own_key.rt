//! Whether a configuration states what is judged beside other values.

use pcm_config::{ConfigPlace, ConfigRefusal};
use std::alloc::Global;
use toml::Value;

// Whether a refusal is of the rate of the mix or of how many channels are mapped, and a text states that. The rate is judged
// beside the rate and the ring of the device, and the mapped channels beside those that play, so what is looked for is their own
// definition, wherever those stand.
pub(crate) fn has_own_key(alloc: Global, text: &[u8], refusal: ConfigRefusal) -> bool {
    match refusal.place {
        ConfigPlace::VchansRate => tells(alloc, text, "rate"),
        ConfigPlace::VchansMapped => tells(alloc, text, "mapped"),
        _ => false,
    }
}

// Of a text that can't be read for lack of memory this isn't known.
fn tells(alloc: Global, text: &[u8], key: &str) -> bool {
    match toml::table_from_slice(alloc, text) {
        Ok(top) => has_key(top.get("vchans"), key),
        Err(_) => true,
    }
}

fn has_key(vchans: Option<&Value>, key: &str) -> bool {
    match vchans.and_then(Value::as_table) {
        Some(vchans) => vchans.get(key).is_some(),
        None => false,
    }
}
