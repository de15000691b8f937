//! Tests of logs: worked examples of what lines, words and a setup say, and of what is printed at the end; and whole runs over disks,
//! inputs and sinks in memory, with what each prints and tells, and what the disks hold that fail from each of their calls on.
#![tactic(auto)]

#[cfg(test)]
mod ends;
#[cfg(test)]
mod faults;
#[cfg(test)]
mod floats;
#[cfg(test)]
mod logged;
#[cfg(test)]
mod runs;
#[cfg(test)]
mod setups;
#[cfg(test)]
mod told;
#[cfg(test)]
mod words;
