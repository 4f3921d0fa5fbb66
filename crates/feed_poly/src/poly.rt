//! The polyphase stage.

ghost use Rattle.std.specs.Prelude.{◌≡◌, ◌<◌, ◌≤◌, ◌*◌, ◌/◌};
ghost use Rattle.pcm_feeder.specs.declared.limits.TheConstants.{PHASES};

use crate::row::Row;
use crate::window::Window;
use feed_rate::{Interpolator, Point, RateFeeder};
use pcm_feeder::{Kind, Spec, Tables};
use std::alloc::{AllocError, Global};

/// Gives each output by the row of a filter for its phase, out of the frames around it.
pub type PolyFeeder = RateFeeder<Polyphase>;

/// The last frames, how many of a feed's are among them already, and the place of the filter.
#[derive(Drop)]
pub struct Polyphase {
    window: Window,
    passed: usize,
    table: usize,
}

impl Interpolator for Polyphase {
    ghost use Rattle.std.specs.Prelude.{◌+◌, true};
    ghost use Rattle.pcm_sequence.specs.Fixed.{fixed_items};
    ghost use Rattle.pcm_feeder.specs.declared.kind.Kind.TheVariants as kinds;
    ghost use Rattle.feed_rate.specs.Methods.Method.{ByFilter};
    ghost use Rattle.feed_poly.specs.Window.{window_frames};
    ghost use Rattle.feed_rate.proofs.Histories.{made-channels};
    ghost use Rattle.feed_poly.specs.Places.{window_sample};

    ghost kind = { kinds.Poly };

    ghost takes_memory = { true };

    ghost seen = { λ poly. record {
      method = ByFilter poly.window.channels poly.table poly.window.taps;
      tail = window_frames poly.window;
      passed = poly.passed;
    } };

    ghost frames = { λ poly. made-channels poly.window.channels poly.window.taps
        (λ i channel. window_sample (fixed_items poly.window.samples) channel (poly.window.at + i)) };

    fn new(alloc: Global) -> Result<Polyphase, AllocError> {
        let window = Window::new(alloc)?;
        Ok(Polyphase {
            window,
            passed: 0,
            table: 0,
        })
    }

    fn kind(&self) -> Kind {
        Kind::Poly
    }

    fn fit(&mut self, spec: Spec) {
        if let Spec::Poly {
            channels,
            table,
            taps,
            ..
        } = spec
        {
            self.window.clear(channels, taps);
            self.passed = 0;
            self.table = table;
        }
    }

    fn keep(&self, samples: &mut [i32]) {
        self.window.keep(samples);
    }

    fn resume(&mut self, spec: Spec, samples: &[i32]) {
        if let Spec::Poly {
            channels,
            table,
            taps,
            ..
        } = spec
        {
            self.window.resume(channels, taps, samples);
            self.passed = 0;
            self.table = table;
        }
    }

    fn channels(&self) -> usize {
        self.window.channels()
    }

    #[inline(always)]
    fn put_frame(&mut self, tables: &Tables, input: &[i32], point: Point, output: &mut [i32]) {
        let channels = output.len();
        let filter = &tables.list()[self.table];
        let row = Row::of(filter, row_at(point, filter.phases));
        // Then the frames of the window are those around the output.
        self.window.eat(channels, input, self.passed, point.needed);
        self.passed = point.needed;
        row.put_frame(channels, &self.window, output);
    }

    fn eat(&mut self, input: &[i32], eaten: usize) {
        let channels = self.window.channels();
        self.window.eat(channels, input, self.passed, eaten);
        self.passed = 0;
    }
}

// Which of `phases` rows is that of a point.
fn row_at(point: Point, phases: usize) -> usize
    requires phases { phases ≤ PHASES }
    requires some { 1 ≤ phases }
    ensures value { result ≡ point.parts * phases / point.whole.divisor }
    ensures there { result < phases }
{
    point.whole.quotient(u64::from(point.parts) * phases as u64) as usize
}
