//! What the stages of a run look up: the filters of the polyphase converter, and the sections of the
//! equaliser.

ghost use Rattle.std.specs.Prelude.{◌≡◌};

use crate::Section;
use pcm_sequence::Sequence;
use std::alloc::Global;
use std::marker::Model;

/// A list of coefficients.
pub type Coefs = Sequence<i32>;

/// A filter for a change of rate, or for any where both rates are 0: a row of `taps` coefficients
/// for each of `phases` phases, one row after another. A coefficient counts as divided by
/// `2 ^ shift`.
#[derive(Debug, Drop)]
pub struct Table {
    pub src: u32,
    pub dst: u32,
    pub phases: usize,
    pub taps: usize,
    pub shift: u32,
    pub coefs: Coefs,
}

/// The filters of a run, at most four, and the sections of its equaliser, at most four.
#[derive(Debug, Drop)]
pub struct Tables {
    list: Vec<Table>,
    sections: Vec<Section>,
}

impl Model for Tables {
    ghost use Rattle.pcm_feeder.specs.Filters.{Filters, as_filters};
    ghost use Rattle.pcm_feeder.specs.Limits.{AreFilters};

    ghost Value = { Filters };

    ghost view = { λ tables. as_filters tables.list.items tables.sections.items };

    ghost invariant = { λ tables. AreFilters (as_filters tables.list.items tables.sections.items) };
}

impl Tables {
    ghost use Rattle.pcm_feeder.specs.Filters.{as_filters, no_filters};
    ghost use Rattle.pcm_feeder.specs.Limits.{AreFilters};

    /// Makes tables of a list of filters and one of sections.
    pub fn new(list: Vec<Table>, sections: Vec<Section>) -> Self
        requires { AreFilters (as_filters list.items sections.items) }
        ensures { result ≡ as_filters list.items sections.items }
    {
        Tables { list, sections }
    }

    /// Neither a filter nor a section. Takes no memory.
    pub fn none(alloc: Global) -> Self
        ensures { result ≡ no_filters }
    {
        Tables::new(Vec::new(alloc), Vec::new(alloc))
    }

    /// Lends the filters in their order.
    pub fn list(&self) -> &[Table]
        ensures value { result.now ≡ self.now.list }
        ensures limits { AreFilters self.now }
    {
        self.list.as_slice()
    }

    /// Lends the sections in their order.
    pub fn sections(&self) -> &[Section]
        ensures value { result.now ≡ self.now.sections }
        ensures limits { AreFilters self.now }
    {
        self.sections.as_slice()
    }
}
