//! Tests of the commands that make a file of another or of two, and of what faults and cuts do to any: whole runs over disks and
//! streams in memory.
#![tactic(auto)]

#[cfg(test)]
mod attached;
#[cfg(test)]
mod cuts;
#[cfg(test)]
mod faults;
#[cfg(test)]
mod finalizing;
#[cfg(test)]
mod joined;
#[cfg(test)]
mod tables;
