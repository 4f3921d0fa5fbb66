//! Tests of the program's call over the forms in memory: whole runs, and each outer call that fails.
//! They hold what no clause of `dsp_main` says: that a call with ample memory is done to its end, and the words of its lines.
#![tactic(auto)]

#[cfg(test)]
mod boxes;
#[cfg(test)]
mod calls;
#[cfg(test)]
mod faults;
#[cfg(test)]
mod recordings;
#[cfg(test)]
mod scripts;
#[cfg(test)]
mod tables;
#[cfg(test)]
mod tallies;
#[cfg(test)]
mod usage;
#[cfg(test)]
mod waves;
