//! One row of a filter.

ghost use Rattle.std.specs.Prelude.{◌≡◌, ◌<◌, ◌≤◌, ◌^◌, pos, neg_ℤ, ◌≤ℤ◌, All, length};
ghost use Rattle.pcm_feeder.specs.Limits.{IsCoef, IsTable};
ghost use Rattle.pcm_feeder.specs.declared.limits.TheConstants.{SHIFT_MOST, TAPS};
ghost use Rattle.pcm_feeder.specs.Sums.{scaled_down};
ghost use Rattle.feed_poly.specs.Rows.{row_in, weighted};

use crate::window::Window;
use pcm_feeder::{Table, product, scaled_down};

/// The coefficients of a row, which count as divided by `2 ^ shift`.
#[derive(Clone, Copy)]
pub struct Row<'a> {
    coefs: &'a [i32],
    shift: u32,
    ghost count: { length coefs.now ≤ TAPS },
    ghost range: { All IsCoef coefs.now },
    ghost least: { 1 ≤ shift },
    ghost most: { shift ≤ SHIFT_MOST },
}

impl<'a> Row<'a> {
    ghost use Rattle.feed_poly.specs.Window.{window_by};

    /// A row of a filter.
    pub fn of(table: &'a Table, row: usize) -> Row<'a>
        requires limits { IsTable table.now }
        requires there { row < table.now.phases }
        ensures coefs { result.coefs.now ≡ row_in table.now row }
        ensures len { length result.coefs.now ≡ table.now.taps }
        ensures shift { result.shift ≡ table.now.shift }
    {
        let at = row * table.taps;
        Row {
            coefs: &table.coefs.as_slice()[at..at + table.taps],
            shift: table.shift,
        }
    }

    /// Writes the frame that this row makes of the frames of a window.
    pub fn put_frame(self, channels: usize, window: &Window, output: &mut [i32])
        requires channels { channels ≡ window.now.channels }
        requires taps { length self.coefs.now ≡ window.now.taps }
        requires room { length output.old ≡ window.now.channels }
        ensures { output.new ≡ window_by self.entry.shift self.entry.coefs.now window.now }
    {
        for channel in 0..channels {
            output[channel] = self.sample(window.channel(channel));
        }
    }

    // The sample that the row makes of a channel's samples.
    fn sample(self, samples: &[i32]) -> i32
        requires { length samples.now ≡ length self.coefs.now }
        ensures { result ≡ scaled_down self.entry.shift (weighted self.entry.coefs.now samples.now) }
    {
        scaled_down(self.shift, sum_of_products(self.coefs, samples))
    }
}

// The sum of samples, each times its coefficient. It lies within 2 to the power 61.
fn sum_of_products(coefs: &[i32], samples: &[i32]) -> i64
    requires count { length coefs.now ≤ TAPS }
    requires range { All IsCoef coefs.now }
    requires samples { length samples.now ≡ length coefs.now }
    ensures value { result ≡ weighted coefs.now samples.now }
    ensures least { neg_ℤ (pos (2 ^ 61)) ≤ℤ result }
    ensures most { result ≤ℤ pos (2 ^ 61) }
{
    let mut sum = 0i64;
    for (at, coef) in coefs.iter().enumerate() {
        sum += product(*coef, samples[at]);
    }
    sum
}
