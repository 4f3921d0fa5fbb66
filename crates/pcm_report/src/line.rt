//! The line of one reply.

ghost use Rattle.std.specs.Prelude.{◌≡◌, ◌+◌, ◌≤◌, length};
ghost use Rattle.pcm_oss.specs.declared.reply.Answer.TheVariants.{Space, Pointer};
ghost use Rattle.pcm_oss.specs.declared.reply.TheConstants.{REPLY_BYTES};
ghost use Rattle.pcm_report.specs.Lines.{answer_text, errno_word, plain_answer, reply_line, result_text};
ghost use Rattle.pcm_report.specs.Texts.{HasTextRoom, IsLinePut, IsPutWithin};

use crate::texts::{put_bytes, put_field, put_number, put_text};
use pcm_oss::{Answer, Errno, ReplyBuf};

/// How many bytes a line has at most.
pub const LINE_BYTES: usize = 8320;

// How many of them are the text of the reply at most.
const TEXT_BYTES: usize = 8256;

/// Writes the line of the reply to event `number` to the front of `out`. Returns how many bytes it has.
pub fn write_line(number: u32, reply: &ReplyBuf, out: &mut [u8]) -> usize
    requires room { LINE_BYTES ≤ length out.old }
    ensures { IsLinePut LINE_BYTES (reply_line number reply.now) result out.old out.new }
{
    let at = put_number(out, 0, u64::from(number));
    let at = put_text(out, at, ": ");
    let at = put_result(out, at, reply.result(), reply.bytes());
    put_text(out, at, "\n")
}

fn put_result(out: &mut [u8], at: usize, reply: Result<Answer, Errno>, read: &[u8]) -> usize
    requires { HasTextRoom TEXT_BYTES REPLY_BYTES at read.now out.old }
    ensures { IsPutWithin TEXT_BYTES (result_text reply read.now) at result out.old out.new }
{
    match reply {
        Ok(answer) => put_answer(out, at, answer, read),
        Err(errno) => {
            let at = put_text(out, at, "refused ");
            put_text(out, at, errno_word(errno))
        }
    }
}

// The word of a refusal.
fn errno_word(errno: Errno) -> &'static str
    ensures word { result.now ≡ errno_word errno }
    ensures short { length result.now ≤ 5 }
{
    match errno {
        Errno::Again => "again",
        Errno::Busy => "busy",
        Errno::Inval => "inval",
        Errno::BadF => "badf",
        Errno::Exist => "exist",
    }
}

fn put_answer(out: &mut [u8], at: usize, answer: Answer, read: &[u8]) -> usize
    requires { HasTextRoom TEXT_BYTES REPLY_BYTES at read.now out.old }
    ensures { IsPutWithin TEXT_BYTES (answer_text answer read.now) at result out.old out.new }
{
    match answer {
        Answer::Done => put_text(out, at, "ok"),
        Answer::Number(number) => {
            let at = put_text(out, at, "ok ");
            put_number(out, at, u64::from(number))
        }
        Answer::Space {
            fragments,
            fragstotal,
            fragsize,
            bytes,
        } => put_space(out, at, fragments, fragstotal, fragsize, bytes),
        Answer::Pointer { bytes, blocks, ptr } => put_pointer(out, at, bytes, blocks, ptr),
        Answer::Errors {
            underruns,
            overruns,
        } => {
            let at = put_text(out, at, "ok");
            let at = put_field(out, at, "underruns", u64::from(underruns));
            put_field(out, at, "overruns", u64::from(overruns))
        }
        Answer::Got(count) => {
            let at = put_text(out, at, "ok ");
            let at = put_number(out, at, u64::from(count));
            let at = put_text(out, at, " ");
            put_bytes(out, at, read)
        }
    }
}

fn put_space(
    out: &mut [u8],
    at: usize,
    fragments: u32,
    fragstotal: u32,
    fragsize: u32,
    bytes: u32,
) -> usize
    requires room { at + TEXT_BYTES ≤ length out.old }
    ensures { IsPutWithin TEXT_BYTES (plain_answer (Space fragments fragstotal fragsize bytes)) at result out.old out.new }
{
    let at = put_text(out, at, "ok");
    let at = put_field(out, at, "fragments", u64::from(fragments));
    let at = put_field(out, at, "fragstotal", u64::from(fragstotal));
    let at = put_field(out, at, "fragsize", u64::from(fragsize));
    put_field(out, at, "bytes", u64::from(bytes))
}

fn put_pointer(out: &mut [u8], at: usize, bytes: u64, blocks: u64, ptr: u32) -> usize
    requires room { at + TEXT_BYTES ≤ length out.old }
    ensures { IsPutWithin TEXT_BYTES (plain_answer (Pointer bytes blocks ptr)) at result out.old out.new }
{
    let at = put_text(out, at, "ok");
    let at = put_field(out, at, "bytes", bytes);
    let at = put_field(out, at, "blocks", blocks);
    put_field(out, at, "ptr", u64::from(ptr))
}
