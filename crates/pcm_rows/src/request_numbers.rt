//! The numbers that requests carry: formats, fragments and volumes.
#![tactic(auto)]

ghost use Rattle.std.specs.Prelude.{◌≡◌, true, false};
ghost use Rattle.std.specs.List.{sum_by};
ghost use Rattle.pcm_format.specs.Formats.{all_formats, code_of};
ghost use Rattle.pcm_feeder.specs.Layouts.{unity};
ghost use Rattle.pcm_oss.specs.declared.fragments.TheConstants.{FRAGMENTS};
ghost use Rattle.pcm_oss.specs.declared.volume.TheConstants.{VOLUME};
ghost use Rattle.pcm_oss.specs.Fragments.{fragments_asked, fragments_told};
ghost use Rattle.pcm_oss.specs.Volumes.{gain_of, is_volume};
ghost use Rattle.pcm_desk.specs.declared.opening.TheConstants.{ALL_FORMATS};

/// The answer of all formats is the sum of their codes.
pub fn codes_of_all_formats()
    ensures sum { sum_by code_of all_formats ≡ ALL_FORMATS }
    ensures value { ALL_FORMATS ≡ 1044984 }
{}

/// The low 16 bits are the logarithm of a fragment's bytes, moved into 4 to 16, and the 15 bits above say how many there
/// are: as many as fit for 0, and else two at least and as many as fit at most. The highest bit says nothing.
pub fn fragments_by_number()
    ensures usual { fragments_asked 0x0004000c ≡ FRAGMENTS }
    ensures told { fragments_told FRAGMENTS ≡ 0x0004000c }
    ensures all { fragments_told (fragments_asked 0) ≡ 536870916 }
    ensures two { fragments_told (fragments_asked 0x00020004) ≡ 131076 }
    ensures one { fragments_told (fragments_asked 0x00010008) ≡ 131080 }
    ensures many { fragments_told (fragments_asked 0x7fff000c) ≡ 2097164 }
    ensures large { fragments_told (fragments_asked 0x7fff0010) ≡ 131088 }
    ensures larger { fragments_told (fragments_asked 0x0002ffff) ≡ 131088 }
    ensures highest { fragments_told (fragments_asked 0x80000004) ≡ 536870916 }
{}

/// A volume is from 0 to 100 on each side, and has no higher bit.
pub fn volumes_at_their_limits()
    ensures least { is_volume 0 ≡ true }
    ensures most { is_volume 0x6464 ≡ true }
    ensures left { is_volume 0x6465 ≡ false }
    ensures right { is_volume 0x6564 ≡ false }
    ensures above { is_volume 0x10000 ≡ false }
{}

/// 100 leaves a sample as it is, and less is as many hundredths of that, rounded down.
pub fn gains_of_volumes()
    ensures begun { VOLUME ≡ 25700 }
    ensures one { gain_of 25700 ≡ unity }
    ensures half { gain_of 0x3264 ≡ record { left = 65536; right = 32768 } }
    ensures rounded { gain_of 0x6301 ≡ record { left = 655; right = 64880 } }
    ensures none { gain_of 0 ≡ record { left = 0; right = 0 } }
{}
