//! Tests of the readers of blocks, rows and data streams, of fields of bits and of values of variable length: worked examples,
//! hostile files, and spans that fail. What is proved needs none.
#![tactic(auto)]

#[cfg(test)]
mod blocks;
#[cfg(test)]
mod convs;
#[cfg(test)]
mod data;
#[cfg(test)]
mod fields;
#[cfg(test)]
mod groups;
#[cfg(test)]
mod heads;
#[cfg(test)]
mod pages;
#[cfg(test)]
mod span;
#[cfg(test)]
mod spelled;
#[cfg(test)]
mod values;
