//! Tests of stores on files in memory, of which calls fail and the power is lost, and of lists of batches that are stored and read; and of what is below
//! a store: disks and journals, and batches of key trees beside the list of all batches, and their counts. What a store reads of files is asked of `case_rooms`, and so is each call of a disk in memory that fails as a group is made,
//! stores batches or is opened again, with each kind of a crash.
#![tactic(auto)]

#[cfg(test)]
mod counts;
#[cfg(test)]
mod disks;
#[cfg(test)]
mod files;
#[cfg(test)]
mod histories;
#[cfg(test)]
mod journals;
#[cfg(test)]
mod lists;
#[cfg(test)]
mod powers;
#[cfg(test)]
mod records;
#[cfg(test)]
mod stores;
#[cfg(test)]
mod trees;
#[cfg(test)]
mod unseen;
