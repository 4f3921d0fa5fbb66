//! The limits of filters and of an equaliser's sections.

/// How many filters a run has at most.
pub const FILTERS: usize = 4;

/// How many rows a filter has at most: one for each phase.
pub const PHASES: usize = 512;

/// How many coefficients a row has at most: one for each tap.
pub const TAPS: usize = 64;

/// How many coefficients a filter has at most, over all its rows.
pub const TABLE_COEFS: usize = 16384;

/// How far a coefficient is from 0 at most.
pub const COEF_MOST: i32 = 16777216;

/// By how many bits the sum of a row's products is shifted at most.
pub const SHIFT_MOST: u32 = 30;

/// How many sections an equaliser has at most.
pub const SECTIONS: usize = 4;

/// By how many bits the sum of a section's products is shifted at most.
pub const SECTION_SHIFT_MOST: u32 = 28;

/// How far a coefficient of a section is from 0 at most.
pub const SECTION_COEF_MOST: i32 = 536870912;
