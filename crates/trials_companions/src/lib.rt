//! Tests of mending and of pictures that are no stored cases (`stored_mends`, the page of `border_show`): numbers,
//! damaged texts, the most that may be found or inserted; what small maps, edits and hostile ids are drawn as; and
//! allocations that fail.
#![tactic(auto)]

#[cfg(test)]
mod bounds;
#[cfg(test)]
mod changes;
#[cfg(test)]
mod faults;
#[cfg(test)]
mod maps;
#[cfg(test)]
mod memory;
#[cfg(test)]
mod numbers;
#[cfg(test)]
mod pictures;
