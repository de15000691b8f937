//! Tests of what records, below the program's commands: calls that succeed, worked examples, and faults. What is proved needs none.
#![tactic(auto)]

#[cfg(test)]
mod books;
#[cfg(test)]
mod disks;
#[cfg(test)]
mod hostfiles;
#[cfg(test)]
mod layouts;
#[cfg(test)]
mod machines;
#[cfg(test)]
mod records;
#[cfg(test)]
mod scripts;
#[cfg(test)]
mod seals;
#[cfg(test)]
mod views;
