//! Tests of the crates below the program, by topic.
//! They hold what no clause says: outside values, calls with ample memory, and the real forms of the outside.
#![tactic(auto)]

#[cfg(test)]
mod books;
#[cfg(test)]
mod configs;
#[cfg(test)]
mod memory_forms;
#[cfg(test)]
mod mixes;
#[cfg(test)]
mod numbers;
#[cfg(test)]
mod raw_boxes;
#[cfg(test)]
mod real_forms;
#[cfg(test)]
mod rings;
#[cfg(test)]
mod scripts;
#[cfg(test)]
mod soaks;
#[cfg(test)]
mod texts;
#[cfg(test)]
mod transfers;
#[cfg(test)]
mod waves;
