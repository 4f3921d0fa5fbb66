//! What the words after the program's name ask for.

ghost use Rattle.std.specs.Prelude.{◌≡◌, IfSome, map, option_map, string_bytes};
ghost use Rattle.pcm_verdict.specs.Commands.{check_words, command_of, config_named, convert_words, name_in, rate_within, run_words, seed_within, soak_words, target_asked};
ghost use Rattle.pcm_format.specs.Layouts.{layout_of};
ghost use Rattle.pcm_wave.specs.Formats.{wave_format};
ghost use Rattle.pcm_wave.specs.Headers.{IsWaveFormat};
ghost use Rattle.pcm_feeder.specs.Limits.{IsRate};
ghost use Rattle.pcm_inputs.specs.Commands.{IsAskedBy, named};

use pcm_format::{Format, Layout, RATE_LEAST, RATE_MOST, Settings};
use pcm_script::decimal_in;
use pcm_wave::is_wave_format;

/// What is asked for, by the names of files.
#[derive(Clone, Copy)]
pub enum Command<'a> {
    /// To run a script into a device file, under a configuration if there is one.
    Run {
        script: &'a str,
        out: &'a str,
        config: Option<&'a str>,
    },
    /// To judge a script, and all that it is read with.
    Check {
        script: &'a str,
        config: Option<&'a str>,
    },
    /// To convert a wave into another with these settings.
    Convert {
        input: &'a str,
        out: &'a str,
        target: Settings,
    },
    /// To run the script that a number makes.
    Soak {
        seed: u32,
    },
}

/// The command that the words spell, if they match a form.
#[tactic(auto, unfolding(pcm_verdict::specs::Commands::command_of))]
pub fn command_in(words: &[String]) -> Option<Command<'_>>
    ensures { IsAskedBy (command_of (map string_bytes words.now)) result }
{
    let (word, words) = words.split_first()?;
    match word.as_str() {
        "run" => run_in(words),
        "check" => check_in(words),
        "convert" => convert_in(words),
        "soak" => soak_in(words),
        _ => None,
    }
}

// `run SCRIPT OUT` and `run SCRIPT OUT CONFIG`.
#[tactic(auto, unfolding(pcm_verdict::specs::Commands::run_words))]
fn run_in(words: &[String]) -> Option<Command<'_>>
    ensures { IsAskedBy (run_words (map string_bytes words.now)) result }
{
    let [s, o, rest @ ..] = words else {
        return None;
    };
    let script = name_in(s)?;
    let out = name_in(o)?;
    let config = config_named(rest)?;
    Some(Command::Run {
        script,
        out,
        config,
    })
}

// `check SCRIPT` and `check SCRIPT CONFIG`.
#[tactic(auto, unfolding(pcm_verdict::specs::Commands::check_words))]
fn check_in(words: &[String]) -> Option<Command<'_>>
    ensures { IsAskedBy (check_words (map string_bytes words.now)) result }
{
    let [s, rest @ ..] = words else {
        return None;
    };
    let script = name_in(s)?;
    let config = config_named(rest)?;
    Some(Command::Check { script, config })
}

// `convert IN OUT RATE FORMAT CHANNELS`.
#[tactic(auto, unfolding(pcm_verdict::specs::Commands::convert_words))]
fn convert_in(words: &[String]) -> Option<Command<'_>>
    ensures { IsAskedBy (convert_words (map string_bytes words.now)) result }
{
    let [i, o, r, f, c] = words else {
        return None;
    };
    let input = name_in(i)?;
    let out = name_in(o)?;
    let target = target_in(r, f, c)?;
    Some(Command::Convert { input, out, target })
}

// `soak N`.
#[tactic(auto, unfolding(pcm_verdict::specs::Commands::soak_words))]
fn soak_in(words: &[String]) -> Option<Command<'_>>
    ensures { IsAskedBy (soak_words (map string_bytes words.now)) result }
{
    let [n] = words else {
        return None;
    };
    let number = decimal_in(n.as_bytes())?;
    let seed = seed_within(number)?;
    Some(Command::Soak { seed })
}

// A number that makes a script has 32 bits.
fn seed_within(number: u64) -> Option<u32>
    ensures { result ≡ seed_within number }
{
    u32::try_from(number).ok()
}

// A name isn't empty.
fn name_in(word: &str) -> Option<&str>
    ensures { option_map (λ name. name.now) result ≡ name_in word.now }
{
    if word.is_empty() { None } else { Some(word) }
}

// The name of a configuration, which may be left out.
fn config_named(words: &[String]) -> Option<Option<&str>>
    ensures { option_map named result ≡ config_named (map string_bytes words.now) }
{
    match words {
        [] => Some(None),
        [c] => Some(Some(name_in(c)?)),
        _ => None,
    }
}

// The settings that a rate, a format and a number of channels ask for.
#[tactic(auto, unfolding(pcm_verdict::specs::Commands::target_asked))]
fn target_in(r: &str, f: &str, c: &str) -> Option<Settings>
    ensures value { result ≡ target_asked r.now f.now c.now }
    ensures limits { IfSome result (λ target. IsRate target.rate × IsWaveFormat target.format) }
{
    let number = decimal_in(r.as_bytes())?;
    let rate = rate_within(number)?;
    let named = Format::from_name(f.as_bytes())?;
    let format = wave_format(named)?;
    let channels = decimal_in(c.as_bytes())?;
    let layout = layout_of(channels)?;
    Some(Settings {
        format,
        layout,
        rate,
    })
}

// Frames per second, within the limits.
fn rate_within(rate: u64) -> Option<u32>
    ensures value { result ≡ rate_within rate }
    ensures limits { IfSome result IsRate }
{
    if rate < u64::from(RATE_LEAST) || rate > u64::from(RATE_MOST) {
        return None;
    }
    Some(rate as u32)
}

// A format, if waves have it.
fn wave_format(format: Format) -> Option<Format>
    ensures value { result ≡ wave_format format }
    ensures limits { IfSome result IsWaveFormat }
{
    if is_wave_format(format) {
        Some(format)
    } else {
        None
    }
}

// The layout with this many channels.
fn layout_of(channels: u64) -> Option<Layout>
    ensures { result ≡ layout_of channels }
{
    u32::try_from(channels).ok().and_then(Layout::of)
}
