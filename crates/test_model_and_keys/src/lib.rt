//! Tests of histories, on small groups with known keys; of what can be derived from which keys: small graphs and drawn ones, what a history sent, and
//! drawn groups; and of the stores of members by the names of peers. What the tree says at the present epoch, the pushes of a batch, what members are
//! told and how stores take it is asked of `case_rooms`, and who derives what of `case_consoles`.
#![tactic(auto)]

#[cfg(test)]
mod closures;
#[cfg(test)]
mod draws;
#[cfg(test)]
mod groups;
#[cfg(test)]
mod histories;
#[cfg(test)]
mod peers;
#[cfg(test)]
mod sent;
