//! Tests of the shared book and of the sources at work: a full block, a seat that another has the turn of, and two sources at once.
#![tactic(auto)]

#[cfg(test)]
mod books;
#[cfg(test)]
mod gates;
#[cfg(test)]
mod seats;
#[cfg(test)]
mod tasks;
#[cfg(test)]
mod turns;
#[cfg(test)]
mod workers;
