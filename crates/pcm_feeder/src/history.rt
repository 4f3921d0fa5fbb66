//! The last frames that a converter keeps, and those that come after them.

ghost use Rattle.std.specs.Prelude.{◌≡◌, ◌<◌, ◌≤◌, ◌+◌, ◌*◌, ◌%◌, ◌++◌, length, drop};
ghost use Rattle.pcm_feeder.specs.Streams.{frame_behind};

/// Lends the frame at a place among those kept and those that come. Both are interleaved samples.
pub fn frame_among<'a>(
    channels: usize,
    kept: &'a [i32],
    input: &'a [i32],
    place: usize,
) -> &'a [i32]
    requires some { 0 < channels }
    requires whole_frames { length kept.now % channels ≡ 0 }
    requires there { (place + 1) * channels ≤ length kept.now + length input.now }
    ensures value { result.now ≡ frame_behind channels kept.now input.now place }
    ensures len { length result.now ≡ channels }
{
    let at = place * channels;
    if at < kept.len() {
        return &kept[at..at + channels];
    }
    let at = at - kept.len();
    &input[at..at + channels]
}

/// Keeps as many last samples as before, after more were eaten.
pub fn move_on(kept: &mut [i32], eaten: &[i32])
    ensures { kept.new ≡ drop (length eaten.now) (kept.old ++ eaten.now) }
{
    let (count, more) = (kept.len(), eaten.len());
    if more < count {
        kept.copy_within(more.., 0);
        kept[count - more..].copy_from_slice(eaten);
    } else {
        kept.copy_from_slice(&eaten[more - count..]);
    }
}
