//! Samples of each format: the least value and the next, one below silence, silence, one above it, and the greatest value
//! and the one before.
#![tactic(auto, unfolding(crate::proofs::Computing::row))]

ghost use Rattle.std.specs.Prelude.{◌≡◌, ◌∷◌, [], codes};
ghost use Rattle.pcm_format.specs.declared.format.Format.TheVariants.{U8, S8, S16Le, S16Be, U16Le, U16Be, S24Le, S24Be, U24Le, U24Be, S32Le, S32Be, U32Le, U32Be};
ghost use Rattle.pcm_rows.specs.ClientFormats.{two_of_24_bits};
ghost use Rattle.pcm_rows.specs.Samples.{edges_in, carried};

/// One byte.
pub fn edges_of_8_bits()
    ensures u8 { edges_in U8 ≡ codes "00017f8081feff" }
    ensures s8 { edges_in S8 ≡ codes "8081ff00017e7f" }
{}

/// Two bytes, in either order.
pub fn edges_of_16_bits()
    ensures s16le { edges_in S16Le ≡ codes "00800180ffff00000100fe7fff7f" }
    ensures s16be { edges_in S16Be ≡ codes "80008001ffff000000017ffe7fff" }
    ensures u16le { edges_in U16Le ≡ codes "00000100ff7f00800180feffffff" }
    ensures u16be { edges_in U16Be ≡ codes "000000017fff80008001fffeffff" }
{}

/// Three bytes, in either order.
pub fn edges_of_24_bits()
    ensures s24le { edges_in S24Le ≡ codes "000080010080ffffff000000010000feff7fffff7f" }
    ensures s24be { edges_in S24Be ≡ codes "800000800001ffffff0000000000017ffffe7fffff" }
    ensures u24le { edges_in U24Le ≡ codes "000000010000ffff7f000080010080feffffffffff" }
    ensures u24be { edges_in U24Be ≡ codes "0000000000017fffff800000800001fffffeffffff" }
{}

/// Four bytes, in either order.
pub fn edges_of_32_bits()
    ensures s32le { edges_in S32Le
        ≡ codes "0000008001000080ffffffff0000000001000000feffff7fffffff7f" }
    ensures s32be { edges_in S32Be
        ≡ codes "8000000080000001ffffffff00000000000000017ffffffe7fffffff" }
    ensures u32le { edges_in U32Le
        ≡ codes "0000000001000000ffffff7f0000008001000080feffffffffffffff" }
    ensures u32be { edges_in U32Be
        ≡ codes "00000000000000017fffffff8000000080000001fffffffeffffffff" }
{}

/// From 24 bits, big-endian, to 16: 384 of the first are one step, and -129 are rounded down to -1.
pub fn fewer_bits_round_down()
    ensures { carried S24Be S16Le two_of_24_bits ≡ 0x01 ∷ 0x00 ∷ 0xff ∷ 0xff ∷ [] }
{}

/// The midpoint of an unsigned format is silence.
pub fn midpoint_is_silence()
    ensures { carried U16Le S16Le (0x00 ∷ 0x80 ∷ 0xff ∷ 0xff ∷ [])
        ≡ 0x00 ∷ 0x00 ∷ 0xff ∷ 0x7f ∷ [] }
{}
