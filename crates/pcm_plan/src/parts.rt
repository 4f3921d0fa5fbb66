//! The parts of plans: what changes layout and rate, and what changes the depth.

ghost use Rattle.std.specs.Prelude.{◌≡◌, ◌<◌, ◌≤◌, ◌+◌, ◌++◌, [], length, IfSome, position};
ghost use Rattle.arrayvec.specs.ArrayVec.{array_vec_len};
ghost use Rattle.pcm_feeder.specs.Filters.{as_filters};
ghost use Rattle.pcm_plan.specs.Plans.{converting, some_stages, matrix_stages, rate_stages, depth_stages, converter_of, filter_or_line, filter_for, is_for, equaliser_stages};
ghost use Rattle.pcm_plan.specs.declared.plan.TheConstants.{STAGES};

use crate::plan::STAGES;
use arrayvec::ArrayVec;
use pcm_feeder::{Spec, Table, Tables};
use pcm_format::{Layout, Settings};

// Appends the stages to another layout and rate. The rate is changed where there are fewer channels.
pub fn push_converting(
    stages: &mut ArrayVec<Spec, STAGES>,
    source: &Settings,
    target: &Settings,
    quality: u32,
    filters: &[Table],
)
    requires { array_vec_len stages.old ≡ 0 }
    ensures stages { stages.new.items
        ≡ converting (as_filters filters.now []) quality source.now target.now }
    ensures room { array_vec_len stages.new ≤ 2 }
{
    let (from, to) = (source.layout, target.layout);
    let (src, dst) = (source.rate, target.rate);
    let matrix = matrix_between(from, to);
    if to.channels() <= from.channels() {
        push_some(stages, matrix);
        let converter = converter_between(src, dst, to.channels(), quality, filters);
        push_some(stages, converter);
    } else {
        let converter = converter_between(src, dst, from.channels(), quality, filters);
        push_some(stages, converter);
        push_some(stages, matrix);
    }
}

// Appends a stage, where there is one.
pub fn push_some(stages: &mut ArrayVec<Spec, STAGES>, stage: Option<Spec>)
    requires { array_vec_len stages.old < STAGES }
    ensures stages { stages.new.items ≡ stages.old.items ++ some_stages stage }
    ensures room { array_vec_len stages.new ≤ array_vec_len stages.old + 1 }
{
    if let Some(spec) = stage {
        stages.push(spec);
    }
}

// The stage from layout to layout, where there is one.
fn matrix_between(from: Layout, to: Layout) -> Option<Spec>
    ensures { some_stages result ≡ matrix_stages from to }
{
    if from.channels() != to.channels() {
        Some(Spec::Matrix { from, to })
    } else {
        None
    }
}

// The stage from rate to rate, where there is one.
fn converter_between(
    src: u32,
    dst: u32,
    channels: usize,
    quality: u32,
    filters: &[Table],
) -> Option<Spec>
    ensures { some_stages result
        ≡ rate_stages (as_filters filters.now []) quality src dst channels }
{
    if src != dst {
        Some(converter_of(src, dst, channels, quality, filters))
    } else {
        None
    }
}

// The equaliser, where there are sections.
pub fn equaliser_over(tables: &Tables, channels: usize) -> Option<Spec>
    ensures { some_stages result ≡ equaliser_stages tables.now channels }
{
    let sections = tables.sections().len();
    if sections != 0 {
        Some(Spec::Eq { channels, sections })
    } else {
        None
    }
}

// The stage to fewer bits, where there is one.
pub fn depth_to(bits: u32, channels: usize) -> Option<Spec>
    ensures { some_stages result ≡ depth_stages bits channels }
{
    if bits != 32 {
        Some(Spec::Depth { bits, channels })
    } else {
        None
    }
}

// The converter of a quality.
fn converter_of(src: u32, dst: u32, channels: usize, quality: u32, filters: &[Table]) -> Spec
    ensures { result ≡ converter_of (as_filters filters.now []) quality src dst channels }
{
    match quality {
        0 => Spec::Hold { src, dst, channels },
        1 => Spec::Linear { src, dst, channels },
        _ => filter_or_line(src, dst, channels, filters),
    }
}

// A converter by the filter for two rates, or by lines where there is none.
fn filter_or_line(src: u32, dst: u32, channels: usize, filters: &[Table]) -> Spec
    ensures { result ≡ filter_or_line (as_filters filters.now []) src dst channels
        (filter_for (as_filters filters.now []) src dst) }
{
    match filter_for(src, dst, filters) {
        Some(table) => Spec::Poly {
            src,
            dst,
            channels,
            table,
            taps: filters[table].taps,
        },
        None => Spec::Linear { src, dst, channels },
    }
}

// The place of the filter for two rates: the first one for these, else the first one for any.
fn filter_for(src: u32, dst: u32, filters: &[Table]) -> Option<usize>
    ensures value { result ≡ filter_for (as_filters filters.now []) src dst }
    ensures within { IfSome result (λ place. place < length filters.now) }
{
    match first_for(src, dst, filters) {
        Some(place) => Some(place),
        None => first_for(0, 0, filters),
    }
}

// The place of the first filter for two rates.
fn first_for(src: u32, dst: u32, filters: &[Table]) -> Option<usize>
    ensures value { result ≡ position (is_for src dst) filters.now }
    ensures within { IfSome result (λ place. place < length filters.now) }
{
    filters.iter().position(|table| is_for(src, dst, table))
}

// Whether a filter is for two rates.
fn is_for(src: u32, dst: u32, table: &Table) -> bool
    ensures { result ≡ is_for src dst table.now }
{
    table.src == src && table.dst == dst
}
