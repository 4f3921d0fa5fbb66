//! The frames that a line goes between, out of those kept and those that come.

ghost use Rattle.std.specs.Prelude.{◌≡◌, ◌<◌, ◌≤◌, ◌+◌, ◌*◌, length};
ghost use Rattle.pcm_feeder.specs.Streams.{frame_behind};

/// Lends the frame at a place among two frames kept and those that come, and the next.
pub fn pair_among<'a>(
    channels: usize,
    kept: &'a [i32],
    input: &'a [i32],
    place: usize,
) -> (&'a [i32], &'a [i32])
    requires some { 0 < channels }
    requires two { length kept.now ≡ 2 * channels }
    requires there { place * channels ≤ length input.now }
    ensures frame { result.0.now ≡ frame_behind channels kept.now input.now place }
    ensures next { result.1.now ≡ frame_behind channels kept.now input.now (place + 1) }
    ensures len { length result.0.now ≡ channels }
    ensures next_len { length result.1.now ≡ channels }
{
    if place >= 2 {
        let at = (place - 2) * channels;
        return input[at..at + 2 * channels].split_at(channels);
    }
    let (first, second) = kept.split_at(channels);
    if place == 0 {
        (first, second)
    } else {
        (second, &input[..channels])
    }
}
