//! Sections made from numbers.

ghost use Rattle.std.specs.Prelude.{◌≡◌, IfOk, map};
ghost use Rattle.std.specs.List.{list_all};
ghost use Rattle.pcm_foreign.specs.Sections.{are_input_coefs, are_output_coefs, is_section, is_section_coef, is_section_shift, section_with};

use pcm_feeder::{SECTION_COEF_MOST, SECTION_SHIFT_MOST, Section};
use std::alloc::{AllocError, Global};

/// A section of the equaliser as numbers, the same as those of `Section`.
#[repr(C)]
#[derive(Clone, Copy, Debug, PartialEq, Eq)]
pub struct SectionNumbers {
    /// A coefficient counts as divided by `2 ^ shift`.
    pub shift: u32,
    pub b0: i32,
    pub b1: i32,
    pub b2: i32,
    pub a1: i32,
    pub a2: i32,
}

// Whether each of these is a section within its limits.
pub(crate) fn are_sections(sections: &[SectionNumbers]) -> bool
    ensures { result ≡ list_all is_section sections.now }
{
    sections.iter().all(is_section)
}

// Whether a section is within its limits.
fn is_section(section: &SectionNumbers) -> bool
    ensures { result ≡ is_section section.now }
{
    is_section_shift(section.shift) && are_input_coefs(section) && are_output_coefs(section)
}

fn is_section_shift(shift: u32) -> bool
    ensures { result ≡ is_section_shift shift }
{
    1 <= shift && shift <= SECTION_SHIFT_MOST
}

// Whether what a section's input counts for is within its limits.
fn are_input_coefs(section: &SectionNumbers) -> bool
    ensures { result ≡ are_input_coefs section.now }
{
    is_section_coef(section.b0) && is_section_coef(section.b1) && is_section_coef(section.b2)
}

// Whether what its output counts for is.
fn are_output_coefs(section: &SectionNumbers) -> bool
    ensures { result ≡ are_output_coefs section.now }
{
    is_section_coef(section.a1) && is_section_coef(section.a2)
}

// Whether a coefficient is at most `SECTION_COEF_MOST` from 0.
fn is_section_coef(coef: i32) -> bool
    ensures { result ≡ is_section_coef coef }
{
    -SECTION_COEF_MOST <= coef && coef <= SECTION_COEF_MOST
}

// The sections of numbers.
pub(crate) fn sections_with(
    alloc: Global,
    sections: &[SectionNumbers],
) -> Result<Vec<Section>, AllocError>
    ensures { IfOk result (λ list. list.items ≡ map section_with sections.now) }
{
    let mut list = Vec::new(alloc);
    for section in sections {
        list.push(section_with(section))?;
    }
    Ok(list)
}

fn section_with(section: &SectionNumbers) -> Section
    ensures { result ≡ section_with section.now }
{
    Section {
        shift: section.shift,
        b0: section.b0,
        b1: section.b1,
        b2: section.b2,
        a1: section.a1,
        a2: section.a2,
    }
}
