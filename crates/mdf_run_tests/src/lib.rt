//! Tests of the commands that record and show, and of `rotate`: whole runs over disks and streams in memory, with the text that
//! each prints, and what the parts of a rotation come to when they are finalized and joined.
#![tactic(auto)]

#[cfg(test)]
mod foreign;
#[cfg(test)]
mod generated;
#[cfg(test)]
mod joined;
#[cfg(test)]
mod kinds;
#[cfg(test)]
mod large;
#[cfg(test)]
mod live;
#[cfg(test)]
mod readings;
#[cfg(test)]
mod recordings;
#[cfg(test)]
mod rotated;
#[cfg(test)]
mod rotations;
#[cfg(test)]
mod runs;
#[cfg(test)]
mod workers;
