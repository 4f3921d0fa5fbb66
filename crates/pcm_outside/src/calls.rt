//! The count of the calls of a form in memory, and the list of those that are to fail.
ghost use Rattle.std.specs.Prelude.{◌≡◌, []};
ghost use Rattle.pcm_outside.specs.Results.{IsDoneOrNot};
ghost use Rattle.pcm_outside.specs.Calls.{is_next_listed, counted, with_listed};

use std::alloc::{AllocError, Global};
use std::marker::Model;

/// Counts calls from 1, and knows which of them are to fail.
#[derive(Drop)]
pub(crate) struct CallList {
    made: u64,
    listed: Vec<u32>,
}

impl Model for CallList {
    ghost use Rattle.pcm_outside.specs.Calls.{Calls};

    ghost Value = { Calls };

    ghost view = { λ c. record { made = c.made; listed = c.listed.items } };
}

impl CallList {
    pub(crate) fn new(alloc: Global) -> CallList
        ensures { result ≡ record { made = 0; listed = [] } }
    {
        CallList {
            made: 0,
            listed: Vec::new(alloc),
        }
    }

    /// Lists a call that is to fail.
    pub(crate) fn fail_at(&mut self, call: u32) -> Result<(), AllocError>
        ensures { IsDoneOrNot self.old self.new (with_listed self.old call) result }
    {
        self.listed.insert(0, call)?;
        Ok(())
    }

    /// Counts one more call, and says whether it is to fail.
    pub(crate) fn count(&mut self) -> bool
        ensures listed { result ≡ is_next_listed self.old }
        ensures counted { self.new ≡ counted self.old }
    {
        self.made = self.made.saturating_add(1);
        self.listed.iter().any(|call| u64::from(*call) == self.made)
    }
}
