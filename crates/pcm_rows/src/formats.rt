//! Clients in other formats and layouts than the device's: each frame goes through the stages of its plan.
#![tactic(auto, unfolding(crate::proofs::Computing::row))]

ghost use Rattle.std.specs.Prelude.{◌≡◌, ◌∷◌, ◌++◌, [], codes};
ghost use Rattle.pcm_desk.specs.Usual.{usual_device};
ghost use Rattle.pcm_rows.specs.Calls.{accepted, played, printed, ring_of_silence, stereo_bytes};
ghost use Rattle.pcm_rows.specs.ClientFormats.{client_judged, client_lines, three_numbers, big_endian_script, unsigned_script, mono_script, surround_script, loud_script, eight_script};

/// 24 bits become 16, rounded down: 384 and -129 are 1 and -1.
pub fn big_endian_24_bits()
    ensures verdict { client_judged "s24be 2 48000" "000180ffff7f" "1" ≡ accepted big_endian_script }
    ensures device { played usual_device big_endian_script ≡ ring_of_silence ++ 0x01 ∷ 0x00 ∷ 0xff ∷ 0xff ∷ [] }
    ensures lines { printed usual_device big_endian_script ≡ client_lines (codes "6") (codes "1") }
{}

/// The midpoint of the unsigned range is silence, and its greatest value is the greatest there is.
pub fn unsigned_16_bits()
    ensures verdict { client_judged "u16le 2 48000" "0080ffff" "1" ≡ accepted unsigned_script }
    ensures device { played usual_device unsigned_script ≡ ring_of_silence ++ 0x00 ∷ 0x00 ∷ 0xff ∷ 0x7f ∷ [] }
    ensures lines { printed usual_device unsigned_script ≡ client_lines (codes "4") (codes "1") }
{}

/// Unsigned bytes of one channel on both sides: 0, 127 and -128 in steps of 256.
pub fn mono_bytes_to_stereo()
    ensures verdict { client_judged "u8 1 48000" "80ff00" "3" ≡ accepted mono_script }
    ensures device { played usual_device mono_script ≡ ring_of_silence ++ stereo_bytes three_numbers }
    ensures lines { printed usual_device mono_script ≡ client_lines (codes "3") (codes "3") }
{}

/// The centre goes to both sides with a weight of 46341, and the low frequency effects to none:
/// 100 and 200 with 300 between them are 312 and 412.
pub fn six_channels_to_two()
    ensures verdict { client_judged "s16le 6 48000" "6400c8002c01900100000000" "1" ≡ accepted surround_script }
    ensures device { played usual_device surround_script ≡ ring_of_silence ++ 0x38 ∷ 0x01 ∷ 0x9c ∷ 0x01 ∷ [] }
    ensures lines { printed usual_device surround_script ≡ client_lines (codes "12") (codes "1") }
{}

/// The sum of three full positions on one side is limited before the mix, and the centre alone
/// on the other side is 23169.
pub fn loud_channels_are_limited()
    ensures verdict { client_judged "s16le 6 48000" "ff7f0000ff7f0000ff7f0000" "1" ≡ accepted loud_script }
    ensures device { played usual_device loud_script ≡ ring_of_silence ++ 0xff ∷ 0x7f ∷ 0x81 ∷ 0x5a ∷ [] }
    ensures lines { printed usual_device loud_script ≡ client_lines (codes "12") (codes "1") }
{}

/// The sides of eight channels are added to the front with a weight of 46341: 4096 and 2896 are 6992,
/// and below zero the sum is rounded down.
pub fn eight_channels_to_two()
    ensures verdict { client_judged "u8 8 48000" "907080c080809070" "1" ≡ accepted eight_script }
    ensures device { played usual_device eight_script ≡ ring_of_silence ++ 0x50 ∷ 0x1b ∷ 0xaf ∷ 0xe4 ∷ [] }
    ensures lines { printed usual_device eight_script ≡ client_lines (codes "8") (codes "1") }
{}
