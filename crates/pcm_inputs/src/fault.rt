//! Why a call is refused, and the line that is printed then.

ghost use Rattle.std.specs.Prelude.{◌≡◌, IfOk, string_bytes};
ghost use Rattle.pcm_verdict.specs.Faults.{bad_config_line, bad_script_line, bad_wave_line, cannot_read_line, fault_line, file_word, usage_line};
ghost use Rattle.pcm_inputs.specs.Faults.{fault_seen, file_kind_seen};

use pcm_config::ConfigRefusal;
use pcm_script::Refusal;
use pcm_wave::WaveFault;
use std::alloc::{AllocError, Global};

/// What is wrong with a file that is to be a wave.
#[derive(Clone, Copy, Debug, PartialEq, Eq)]
pub enum FileKind {
    /// It is no wave.
    NoWave(WaveFault),
    /// It is too long, or what it is converted to would be.
    Long,
    /// Its rate or its layout isn't the device's.
    Shape,
}

/// Why a call is refused whose words match a form.
#[derive(Clone, Copy, Debug)]
pub enum Fault<'a> {
    /// The file of this name can't be read.
    CannotRead(&'a str),
    /// The configuration is refused.
    BadConfig(ConfigRefusal),
    /// The wave of this name is refused.
    BadWave(&'a str, FileKind),
    /// The script is refused.
    BadScript(Refusal),
}

impl FileKind {
    // The word that names the kind.
    pub(crate) fn word(self) -> &'static str
        ensures { result.now ≡ file_word (file_kind_seen self) }
    {
        match self {
            FileKind::NoWave(WaveFault::NotRiff) => "notriff",
            FileKind::NoWave(WaveFault::NoFormat) => "noformat",
            FileKind::NoWave(WaveFault::NoData) => "nodata",
            FileKind::NoWave(WaveFault::Unsupported) => "unsupported",
            FileKind::NoWave(WaveFault::Truncated) => "truncated",
            FileKind::Long => "long",
            FileKind::Shape => "shape",
        }
    }
}

/// The line that is printed for a fault.
pub fn line_of(alloc: Global, fault: Fault<'_>) -> Result<String, AllocError>
    ensures { IfOk result (λ line. string_bytes line ≡ fault_line (fault_seen fault.entry)) }
{
    match fault {
        Fault::CannotRead(name) => cannot_read_line(alloc, name),
        Fault::BadConfig(refusal) => bad_config_line(alloc, refusal),
        Fault::BadWave(name, kind) => bad_wave_line(alloc, name, kind),
        Fault::BadScript(refusal) => bad_script_line(alloc, refusal),
    }
}

/// All forms of words.
pub fn usage_line() -> &'static str
    ensures { result.now ≡ usage_line }
{
    "dsp_replay: usage: run SCRIPT OUT [CONFIG] | check SCRIPT [CONFIG] | convert IN OUT RATE FORMAT CHANNELS | soak N\n"
}

// A file can't be read.
fn cannot_read_line(alloc: Global, name: &str) -> Result<String, AllocError>
    ensures { IfOk result (λ line. string_bytes line ≡ cannot_read_line name.now) }
{
    format!(in alloc; "dsp_replay: cannot read {name}\n")
}

// A configuration is refused.
fn bad_config_line(alloc: Global, refusal: ConfigRefusal) -> Result<String, AllocError>
    ensures { IfOk result (λ line. string_bytes line ≡ bad_config_line refusal) }
{
    let kind = refusal.kind.word();
    let place = refusal.place.word();
    format!(in alloc; "dsp_replay: bad configuration: {kind} {place}\n")
}

// A wave is refused.
fn bad_wave_line(alloc: Global, name: &str, kind: FileKind) -> Result<String, AllocError>
    ensures { IfOk result (λ line. string_bytes line ≡ bad_wave_line name.now (file_kind_seen kind)) }
{
    let kind = kind.word();
    format!(in alloc; "dsp_replay: bad wave: {name}: {kind}\n")
}

// A line of the script is refused.
fn bad_script_line(alloc: Global, refusal: Refusal) -> Result<String, AllocError>
    ensures { IfOk result (λ line. string_bytes line ≡ bad_script_line refusal) }
{
    let line = refusal.line;
    let kind = refusal.kind.word();
    format!(in alloc; "dsp_replay: bad script: line {line}: {kind}\n")
}
