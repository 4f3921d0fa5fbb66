//! Scripts that are refused.
#![tactic(auto, unfolding(crate::proofs::Computing::row))]

ghost use Rattle.std.specs.Prelude.{◌≡◌, codes};
ghost use Rattle.pcm_desk.specs.declared.device.TheConstants.{OPENING};
ghost use Rattle.pcm_script.specs.declared.fault.ScriptKind.TheVariants.{Word, Count, Number, Name, Hex, Range, Long};
ghost use Rattle.pcm_rows.specs.Calls.{accepted, judged, line_for, script_in, status_for};
ghost use Rattle.pcm_rows.specs.Refusals.{refused_at, open_script, eight_at, large_device, largest_script};

/// An interrupt can't take more than the ring holds.
pub fn interrupt_above_the_ring()
    ensures verdict { script_in "intr 1025\n" ≡ refused_at 1 Range }
    ensures printed { line_for (script_in "intr 1025\n") ≡ codes "dsp_replay: bad script: line 1: range\n" }
    ensures status { status_for (script_in "intr 1025\n") ≡ 5 }
{}

/// A client plays in any format and layout, at any rate from 4000 to 192000.
pub fn rates_at_their_limits()
    ensures opening { script_in "open 0 play" ≡ accepted (open_script OPENING) }
    ensures least { script_in "open 0 play u32be 8 4000" ≡ accepted (open_script (eight_at 4000)) }
    ensures most { script_in "open 0 play u32be 8 192000" ≡ accepted (open_script (eight_at 192000)) }
    ensures below { script_in "open 0 play u32be 8 3999" ≡ refused_at 1 Range }
    ensures above { script_in "open 0 play u32be 8 192001" ≡ refused_at 1 Range }
{}

/// The device gets 2 ^ 28 bytes at most: one frame more is refused, in one interrupt or in two.
pub fn device_bytes_at_the_limit()
    ensures most { judged large_device (codes "intr 67108864") ≡ accepted largest_script }
    ensures one { judged large_device (codes "intr 67108865") ≡ refused_at 1 Long }
    ensures two { judged large_device (codes "intr 67108864\nintr 1") ≡ refused_at 2 Long }
{}

/// Each kind of fault, at the line that has it.
pub fn each_kind_of_fault()
    ensures word { script_in "intr 4\n\nplay 0\n" ≡ refused_at 3 Word }
    ensures count { script_in "close 0 0" ≡ refused_at 1 Count }
    ensures number { script_in "intr 4#" ≡ refused_at 1 Number }
    ensures name { script_in "open 0 both" ≡ refused_at 1 Name }
    ensures hex { script_in "write 0 012" ≡ refused_at 1 Hex }
    ensures range { script_in "close 64" ≡ refused_at 1 Range }
    ensures read { script_in "read 0 4097" ≡ refused_at 1 Range }
    ensures way { script_in "open 0 record" ≡ refused_at 1 Name }
    ensures file { script_in "send 0 song 0 4096" ≡ refused_at 1 Name }
{}

/// The words of a request that is known are counted first. Then come the descriptor, the name and
/// the number.
pub fn faults_of_requests()
    ensures few { script_in "ioctl 64 setfmt" ≡ refused_at 1 Count }
    ensures many { script_in "ioctl 64 sync 0" ≡ refused_at 1 Count }
    ensures none { script_in "ioctl 0" ≡ refused_at 1 Count }
    ensures descriptor { script_in "ioctl 64 nosuch 0" ≡ refused_at 1 Range }
    ensures name { script_in "ioctl 0 nosuch x" ≡ refused_at 1 Name }
    ensures number { script_in "ioctl 0 speed u8" ≡ refused_at 1 Number }
    ensures range { script_in "ioctl 0 speed 4294967296" ≡ refused_at 1 Range }
    ensures format { script_in "ioctl 0 setfmt s20le" ≡ refused_at 1 Name }
    ensures code { script_in "ioctl 0 setfmt 4294967296" ≡ refused_at 1 Range }
    ensures long { script_in "ioctl 0 setfmt 42949672960" ≡ refused_at 1 Name }
{}

/// What is asked of the mixer device has its own number of words: one that it doesn't have is judged before the numbers.
pub fn faults_of_the_mixer_device()
    ensures alone { script_in "mixer" ≡ refused_at 1 Count }
    ensures name { script_in "mixer volume 1" ≡ refused_at 1 Name }
    ensures capital { script_in "mixer Master" ≡ refused_at 1 Name }
    ensures master { script_in "mixer master 1 2" ≡ refused_at 1 Count }
    ensures slot { script_in "mixer slot" ≡ refused_at 1 Count }
    ensures mute { script_in "mixer mute x" ≡ refused_at 1 Count }
    ensures mute_alone { script_in "mixer mute" ≡ refused_at 1 Count }
    ensures many { script_in "mixer nosuch 1 2 3" ≡ refused_at 1 Count }
    ensures number { script_in "mixer slot 0x x" ≡ refused_at 1 Number }
    ensures range { script_in "mixer slot 4294967296 x" ≡ refused_at 1 Range }
    ensures volume { script_in "mixer slot 16 0x100000000" ≡ refused_at 1 Number }
    ensures on { script_in "mixer mute 0 4294967296" ≡ refused_at 1 Range }
{}
