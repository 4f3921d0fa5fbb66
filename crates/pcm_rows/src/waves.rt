//! Waves, byte by byte: what is read as sound, and why other bytes are none.
#![tactic(auto)]

ghost use Rattle.std.specs.Prelude.{◌≡◌, ◌∷◌, [], ◌++◌, take, Err};
ghost use Rattle.pcm_wave.specs.declared.wave.WaveFault.TheVariants.{NotRiff, NoFormat, NoData, Unsupported, Truncated};
ghost use Rattle.pcm_wave.specs.Headers.{header_of};
ghost use Rattle.pcm_wave.specs.Waves.{wave_of};
ghost use Rattle.pcm_rows.specs.Waves.{extensible_chunk, format_chunk, format_chunk_at, format_of, frame_chunk, frame_of_two, list_chunk, odd_chunk, read_from, short_format, small_number, small_wave, stereo_settings, wave_of_chunks, wave_telling};

/// One frame of two channels: the header is the 44 bytes that a hand writes, and the body stands after them.
pub fn small_wave()
    ensures read { wave_of small_wave ≡ read_from 44 }
    ensures written { header_of stereo_settings 1 ++ frame_of_two ≡ small_wave }
{}

/// The size of the file isn't looked at, and a body that was still open when it was written goes to the end of the bytes.
pub fn waves_with_open_ends()
    ensures file { wave_of (wave_of_chunks (format_chunk ++ frame_chunk)) ≡ read_from 44 }
    ensures greatest { wave_of (wave_telling (0xff ∷ 0xff ∷ 0xff ∷ 0xff ∷ [])) ≡ read_from 44 }
    ensures piped { wave_of (wave_telling (0x00 ∷ 0xf0 ∷ 0xff ∷ 0x7f ∷ [])) ≡ read_from 44 }
    ensures least { wave_of (wave_telling (0x00 ∷ 0x00 ∷ 0x00 ∷ 0x7f ∷ [])) ≡ read_from 44 }
    ensures below { wave_of (wave_telling (0xff ∷ 0xff ∷ 0xff ∷ 0x7e ∷ [])) ≡ Err Truncated }
{}

/// Other chunks are skipped, with the padding of an odd one. The first "fmt " counts, and an extensible format may name PCM.
pub fn waves_with_more_chunks()
    ensures odd { wave_of (wave_of_chunks (format_chunk ++ odd_chunk ++ frame_chunk)) ≡ read_from 56 }
    ensures first { wave_of (wave_of_chunks (format_chunk ++ format_of 1 1 1 8 ++ frame_chunk)) ≡ read_from 68 }
    ensures extensible { wave_of (wave_of_chunks (extensible_chunk 1 ++ frame_chunk)) ≡ read_from 68 }
    ensures behind { wave_of (wave_of_chunks (format_chunk ++ frame_chunk ++ odd_chunk)) ≡ read_from 44 }
{}

/// Settings that aren't read: other tags, bits, channels, rates and frames.
pub fn unsupported_waves()
    ensures tag { wave_of (wave_of_chunks (format_of 3 2 8 32)) ≡ Err Unsupported }
    ensures extensible { wave_of (wave_of_chunks (extensible_chunk 3)) ≡ Err Unsupported }
    ensures bits { wave_of (wave_of_chunks (format_of 1 2 4 12)) ≡ Err Unsupported }
    ensures channels { wave_of (wave_of_chunks (format_of 1 3 6 16)) ≡ Err Unsupported }
    ensures frame { wave_of (wave_of_chunks (format_of 1 2 8 16)) ≡ Err Unsupported }
    ensures slow { wave_of (wave_of_chunks (format_chunk_at (0x9f ∷ 0x0f ∷ 0 ∷ 0 ∷ []))) ≡ Err Unsupported }
    ensures fast { wave_of (wave_of_chunks (format_chunk_at (0x01 ∷ 0xee ∷ 0x02 ∷ 0 ∷ []))) ≡ Err Unsupported }
    ensures short { wave_of (wave_of_chunks short_format) ≡ Err Unsupported }
{}

/// The bytes end too early, or a chunk isn't there.
pub fn broken_waves()
    ensures form { wave_of (take 11 small_wave) ≡ Err NotRiff }
    ensures data_first { wave_of (wave_of_chunks (frame_chunk ++ format_chunk)) ≡ Err NoFormat }
    ensures no_chunk { wave_of (wave_of_chunks []) ≡ Err NoFormat }
    ensures no_data { wave_of (take 36 small_wave) ≡ Err NoData }
    ensures half_head { wave_of (take 43 small_wave) ≡ Err NoData }
    ensures cut_format { wave_of (take 35 small_wave) ≡ Err Truncated }
    ensures cut_body { wave_of (wave_telling (small_number 5)) ≡ Err Truncated }
    ensures cut_chunk { wave_of (wave_of_chunks (format_chunk ++ list_chunk 13 [] ++ frame_chunk)) ≡ Err NoData }
    ensures no_padding { wave_of (wave_of_chunks (format_chunk ++ list_chunk 1 (7 ∷ []) ++ frame_chunk)) ≡ Err NoData }
{}
