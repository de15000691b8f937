//! Tests of what is read of whole files and recordings and made of them: worked examples, golden bytes and hostile files. What is
//! proved needs none.
#![tactic(auto)]

#[cfg(test)]
mod attachments;
#[cfg(test)]
mod carried;
#[cfg(test)]
mod completed;
#[cfg(test)]
mod concats;
#[cfg(test)]
mod cuts;
#[cfg(test)]
mod exports;
#[cfg(test)]
mod finalized;
#[cfg(test)]
mod measurements;
#[cfg(test)]
mod paged;
#[cfg(test)]
mod recorded;
#[cfg(test)]
mod sessions;
#[cfg(test)]
mod sorted;
