//! What holds of texts that are written: each function here has no work, and its contract is a law.

ghost use Rattle.std.specs.Prelude.{◌≡◌, ◌∷◌, [], List, Ok, codes};
ghost use Rattle.pcm_oss.specs.declared.event.Event.TheVariants.{Close, Intr, Ioctl, Join, Mixer, Open, Poke, Read, StartGroup, Write};
ghost use Rattle.pcm_oss.specs.declared.event.Way.TheVariants.{Map, Play, Record};
ghost use Rattle.pcm_oss.specs.declared.mix_request.MixRequest.TheVariants.{GetMaster, GetSlot, Mute, SetMaster, SetSlot};
ghost use Rattle.pcm_oss.specs.declared.request.Request.TheVariants.{SetFmt, SetTrigger, Sync};
ghost use Rattle.pcm_wave.specs.declared.pool.Source.TheVariants.{Inline};
ghost use Rattle.pcm_wave.specs.DataFiles.{DataFileSeen};
ghost use Rattle.pcm_desk.specs.Device.{DeviceSeen};
ghost use Rattle.pcm_script.specs.declared.script.Script.{Script};
ghost use Rattle.pcm_script.specs.Lines.{pool_of, script_read};
ghost use Rattle.pcm_text.specs.Examples.{line_alone, sent, small_settings, text_for};
ghost use Rattle.pcm_text.specs.ReadBack.{AskTheSame, IsWritable, rewritten};
ghost use Rattle.pcm_text.specs.Texts.{text_of};

/// The text of a script that a device takes is read, and the script that it is asks for the same: the same events in the same
/// order, but that the bytes of a write or a poke may stand at another place, where they are the same bytes.
pub fn what_is_written_is_read_back()
    ensures read { (device : DeviceSeen) (files : List DataFileSeen) (script : Script)
        → IsWritable device files script
        → script_read device files (text_of files script) ≡ Ok (rewritten files script) }
    ensures same { (device : DeviceSeen) (files : List DataFileSeen) (script : Script)
        → IsWritable device files script
        → AskTheSame (pool_of files script) (pool_of files (rewritten files script))
        script.events (rewritten files script).events }
{}

/// Rows: the line of one event of each kind.
pub fn lines_are_written_so()
    ensures open { line_alone (Open 0 Play small_settings) ≡ codes "open 0 play u8 2 8000\n" }
    ensures record { line_alone (Open 63 Record small_settings) ≡ codes "open 63 rec u8 2 8000\n" }
    ensures map { line_alone (Open 1 Map small_settings) ≡ codes "open 1 map u8 2 8000\n" }
    ensures write { line_alone (Write 7 Inline 1 3) ≡ codes "write 7 0aff00\n" }
    ensures empty { line_alone (Write 7 Inline 2 0) ≡ codes "write 7 -\n" }
    ensures send { line_alone sent ≡ codes "send 10 song 2 40\n" }
    ensures poke { line_alone (Poke 63 4294967295 1 2) ≡ codes "poke 63 4294967295 0aff\n" }
    ensures nothing { line_alone (Poke 0 0 4 0) ≡ codes "poke 0 0 -\n" }
    ensures read { line_alone (Read 1 4096) ≡ codes "read 1 4096\n" }
    ensures format { line_alone (Ioctl 2 (SetFmt 16)) ≡ codes "ioctl 2 setfmt 16\n" }
    ensures greatest { line_alone (Ioctl 2 (SetTrigger 4294967295)) ≡ codes "ioctl 2 settrigger 4294967295\n" }
    ensures sync { line_alone (Ioctl 2 Sync) ≡ codes "ioctl 2 sync\n" }
    ensures join { line_alone (Join 3 0) ≡ codes "ioctl 3 syncgroup 0\n" }
    ensures start { line_alone (StartGroup 63 4294967295) ≡ codes "ioctl 63 syncstart 4294967295\n" }
    ensures close { line_alone (Close 9) ≡ codes "close 9\n" }
    ensures set_master { line_alone (Mixer (SetMaster 12850)) ≡ codes "mixer master 12850\n" }
    ensures get_master { line_alone (Mixer GetMaster) ≡ codes "mixer master\n" }
    ensures set_slot { line_alone (Mixer (SetSlot 1 12900)) ≡ codes "mixer slot 1 12900\n" }
    ensures get_slot { line_alone (Mixer (GetSlot 4294967295)) ≡ codes "mixer slot 4294967295\n" }
    ensures mute { line_alone (Mixer (Mute 15 0)) ≡ codes "mixer mute 15 0\n" }
    ensures interrupt { line_alone (Intr 1024) ≡ codes "intr 1024\n" }
    ensures several { text_for (Close 1 ∷ Intr 4 ∷ []) ≡ codes "close 1\nintr 4\n" }
    ensures none { text_for [] ≡ [] }
{}
