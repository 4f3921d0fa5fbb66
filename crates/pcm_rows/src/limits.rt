//! The limits of a run, as numbers.
#![tactic(auto)]

ghost use Rattle.std.specs.Prelude.{◌≡◌, pos};
ghost use Rattle.pcm_format.specs.declared.format.Format.TheVariants.{U8};
ghost use Rattle.pcm_format.specs.declared.layout.Layout.TheVariants.{One};
ghost use Rattle.pcm_format.specs.declared.settings.TheConstants.{RATE_LEAST, RATE_MOST};
ghost use Rattle.pcm_feeder.specs.declared.limits.TheConstants.{COEF_MOST, FILTERS, PHASES, SECTIONS, SECTION_COEF_MOST, SECTION_SHIFT_MOST, SHIFT_MOST, TABLE_COEFS, TAPS};
ghost use Rattle.pcm_feeder.specs.declared.rack.TheConstants.{RACKS};
ghost use Rattle.pcm_oss.specs.declared.event.TheConstants.{SLOTS};
ghost use Rattle.pcm_oss.specs.declared.fragments.TheConstants.{FRAGMENTS, RING_BYTES};
ghost use Rattle.pcm_oss.specs.declared.reply.TheConstants.{REPLY_BYTES};
ghost use Rattle.pcm_oss.specs.declared.volume.TheConstants.{VOLUME};
ghost use Rattle.pcm_report.specs.declared.line.TheConstants.{LINE_BYTES};
ghost use Rattle.pcm_report.specs.declared.texts.TheConstants.{DIGITS};
ghost use Rattle.pcm_group.specs.declared.sync_groups.TheConstants.{GROUPS};
ghost use Rattle.pcm_plan.specs.declared.plan.TheConstants.{STAGES};
ghost use Rattle.pcm_chain.specs.declared.staging.TheConstants.{BLOCK_FRAMES};
ghost use Rattle.pcm_desk.specs.declared.device.TheConstants.{OPENING, QUALITY_MOST};
ghost use Rattle.pcm_desk.specs.declared.limits.TheConstants.{DESCRIPTORS, DEVICE_BYTES, EVENTS, MIX_FRAMES, READ_BYTES, RING_FRAMES, WRITE_BYTES};
ghost use Rattle.pcm_desk.specs.declared.opening.TheConstants.{ALL_FORMATS, CAPABILITIES};
ghost use Rattle.pcm_desk.specs.declared.trigger.TheConstants.{PLAY_BIT, RECORD_BIT};
ghost use Rattle.pcm_config.specs.declared.limits.TheConstants.{CONFIG_BYTES};
ghost use Rattle.pcm_script.specs.declared.limits.TheConstants.{TEXT_BYTES};
ghost use Rattle.pcm_soak.specs.declared.limits.TheConstants.{INLINE_BYTES, SOAK_EVENTS, SOAK_FRAMES};

/// How many of each there are at once, and how much a call, a ring and a run have at most.
pub fn limits_of_a_run()
    ensures descriptors { DESCRIPTORS ≡ 64 }
    ensures slots { SLOTS ≡ 16 }
    ensures groups { GROUPS ≡ 8 }
    ensures racks { RACKS ≡ 33 }
    ensures written { WRITE_BYTES ≡ 4096 }
    ensures read { READ_BYTES ≡ 4096 }
    ensures ring { RING_BYTES ≡ 131072 }
    ensures ring_frames { RING_FRAMES ≡ 262144 }
    ensures mixed { MIX_FRAMES ≡ 262144 }
    ensures events { EVENTS ≡ 1048576 }
    ensures handed { DEVICE_BYTES ≡ 268435456 }
{}

/// The settings of an open that names none, and the answers of all formats and capabilities.
pub fn numbers_of_an_opening()
    ensures settings { OPENING ≡ record { rate = 8000; format = U8; layout = One } }
    ensures fragments { FRAGMENTS ≡ record { log = 12; count = 4 } }
    ensures volume { VOLUME ≡ 0x6464 }
    ensures formats { ALL_FORMATS ≡ 0xff1f8 }
    ensures capabilities { CAPABILITIES ≡ 0x1200 }
    ensures plays { PLAY_BIT ≡ 2 }
    ensures records { RECORD_BIT ≡ 1 }
{}

/// How much text is read and written at most.
pub fn limits_of_texts()
    ensures script { TEXT_BYTES ≡ 67108864 }
    ensures configuration { CONFIG_BYTES ≡ 2097152 }
    ensures reply { REPLY_BYTES ≡ 4096 }
    ensures line { LINE_BYTES ≡ 8320 }
    ensures digits { DIGITS ≡ 20 }
    ensures soak_events { SOAK_EVENTS ≡ 20000 }
    ensures soak_bytes { INLINE_BYTES ≡ 8192 }
    ensures soak_frames { SOAK_FRAMES ≡ 5117952 }
{}

/// Rates, and what converts them: filters, sections and stages.
pub fn limits_of_stages()
    ensures rate_least { RATE_LEAST ≡ 4000 }
    ensures rate_most { RATE_MOST ≡ 192000 }
    ensures quality { QUALITY_MOST ≡ 4 }
    ensures stages { STAGES ≡ 5 }
    ensures block { BLOCK_FRAMES ≡ 256 }
    ensures filters { FILTERS ≡ 4 }
    ensures phases { PHASES ≡ 512 }
    ensures taps { TAPS ≡ 64 }
    ensures coefs { TABLE_COEFS ≡ 16384 }
    ensures coef { COEF_MOST ≡ pos 16777216 }
    ensures shift { SHIFT_MOST ≡ 30 }
    ensures sections { SECTIONS ≡ 4 }
    ensures section_coef { SECTION_COEF_MOST ≡ pos 536870912 }
    ensures section_shift { SECTION_SHIFT_MOST ≡ 28 }
{}
