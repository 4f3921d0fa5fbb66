//! Runs a script of client calls and interrupts, and writes the device's bytes and the replies; judges a script; converts a wave; runs the
//! script that a number makes.
//! It gives `dsp_main` of `pcm_replay` its words, the real files, standard output, and 33 racks of boxed feeders.
#![tactic(auto)]

ghost use Rattle.std.specs.Prelude.{◌≡◌, ◌≢◌, ◌⊎◌, None};
ghost use Rattle.pcm_verdict.specs.Commands.{command_of};
ghost use Rattle.pcm_replay.specs.Calls.{texts};
ghost use Rattle.pcm_replay.specs.Outcomes.{IsStatus};

mod boxed;
mod explain;

use boxed::run_boxed;
use explain::explain;
use pcm_causes::FirstPut;
use pcm_outside::{RealFiles, RealSink};
use std::io::{self, ErrorKind};
use std::process::ExitCode;
use std::{env, fs};

// A file to read that has no bytes.
const NOTHING: &str = "/dev/null";

fn main(rt: HostRuntime) -> ExitCode {
    // An output that is closed leaves its number to the next file that is opened. Three files that are only read take such numbers,
    // so that what is printed fails and doesn't come into a file.
    let held = [
        fs::open(&rt, NOTHING),
        fs::open(&rt, NOTHING),
        fs::open(&rt, NOTHING),
    ];
    let status = match words_after_name(&rt) {
        Ok(words) => run(&rt, &words),
        Err(fault) if fault.kind() == ErrorKind::OutOfMemory => {
            explain(&rt, &[], 8, b"", false);
            8
        }
        // Words that aren't UTF-8 match no form, as an empty list matches none.
        Err(_) => run(&rt, &[]),
    };
    drop(held);
    ExitCode::from(status)
}

fn words_after_name(rt: &HostRuntime) -> io::Result<Vec<String>> {
    let words = env::args(rt)?.skip(1).collect(rt.alloc())?;
    Ok(words)
}

fn run(rt: &HostRuntime, words: &[String]) -> u8
    ensures statuses { IsStatus result }
    ensures usage { result ≡ 2 → command_of (texts words) ≡ None }
    ensures only_usage { command_of (texts words) ≡ None → result ≢ 2 → (result ≡ 7) ⊎ (result ≡ 8) }
{
    let mut files = RealFiles::new(rt);
    let mut out = FirstPut::new(RealSink::new(rt));
    // The boxes that this program makes are of the right kinds, so what refuses them is memory.
    let status = run_boxed(rt.alloc(), words, &mut files, &mut out).unwrap_or(8);
    explain(rt, words, status, out.first(), files.write_faults() > 0);
    status
}
