//! Tests of lists, logs, marks, names and faults, of changes that wait for a batch, of pushes that were noted, of ciphers and hashes by the
//! values of their standards, and of sources, sinks, signatures and draws; and of desks, of epoch boards, and of a desk whose value publishes on
//! a board that it borrows.
#![tactic(auto)]

#[cfg(test)]
mod blocks;
#[cfg(test)]
mod boards;
#[cfg(test)]
mod chains;
#[cfg(test)]
mod crossings;
#[cfg(test)]
mod desks;
#[cfg(test)]
mod draws;
#[cfg(test)]
mod faults;
#[cfg(test)]
mod hashes;
#[cfg(test)]
mod lists;
#[cfg(test)]
mod marks;
#[cfg(test)]
mod memory;
#[cfg(test)]
mod names;
#[cfg(test)]
mod octets;
#[cfg(test)]
mod published;
#[cfg(test)]
mod pushes;
#[cfg(test)]
mod queues;
#[cfg(test)]
mod signatures;
#[cfg(test)]
mod streams;
#[cfg(test)]
mod sums;
#[cfg(test)]
mod workers;
