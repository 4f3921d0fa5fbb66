//! What a configuration settles, which is read again.

use crate::again::content;
use pcm_config::{Config, config_of, default_config};
use std::alloc::Global;
use std::rt;

// What is settled of a run or a check of these words.
pub(crate) fn settled<R: rt::Files>(rt: &R, alloc: Global, words: &[String]) -> Option<Config> {
    match config_named(words) {
        Some(name) => config_of(alloc, &content(rt, alloc, name)?).ok(),
        None => Some(default_config(alloc)),
    }
}

// The configuration of `run SCRIPT OUT CONFIG` or `check SCRIPT CONFIG`.
fn config_named(words: &[String]) -> Option<&str> {
    match words {
        [_, _, _, config] => Some(config.as_str()),
        [command, _, config] if command.as_str() == "check" => Some(config.as_str()),
        _ => None,
    }
}
