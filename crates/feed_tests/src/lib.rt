//! Tests of the stages and of what holds them: the stages in boxes and without, a long stream in pieces, the racks, chains and conversions.
//! They hold what no clause says: that what is generic runs with boxes and without, and that there is memory where it is ample.
#![tactic(auto)]

#[cfg(test)]
mod chains;
#[cfg(test)]
mod conversions;
#[cfg(test)]
mod cuts;
#[cfg(test)]
mod gives;
#[cfg(test)]
mod racks;
#[cfg(test)]
mod stages;
#[cfg(test)]
mod unboxed;
