//! Bytes as contracts see them.

use pcm_sequence::Sequence;

/// A list of bytes.
pub type Bytes = Sequence<u8>;
