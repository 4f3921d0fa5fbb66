//! What stands on the error output beside a status.

use pcm_causes::cause_of;

/// Says what happened where no line of its own was printed, and the cause of the line of a fault. Where that can't be written
/// either, there is only the status.
pub(crate) fn explain(rt: &HostRuntime, words: &[String], status: u8, line: &[u8], is_file: bool) {
    match (status, words) {
        (3..=6, _) => {
            if let Some(cause) = cause_of(rt, rt.alloc(), words, status, line) {
                let _ = eprintln!(rt; "dsp_replay: {cause}");
            }
        }
        (7, [_, _, out, ..]) if is_file => {
            let _ = eprintln!(rt; "dsp_replay: cannot write {out}");
        }
        (7, _) => {
            let _ = rt.eprintln("dsp_replay: cannot write the output");
        }
        (8, _) => {
            let _ = rt.eprintln("dsp_replay: out of memory");
        }
        _ => {}
    }
}
