//! Tests of reading that no file of texts holds: texts at the limits, little memory, allocations that
//! are refused, and the texts of faults that no text leads to.
#![tactic(auto)]

#[cfg(test)]
mod faults;
#[cfg(test)]
mod geojson;
#[cfg(test)]
mod huge;
#[cfg(test)]
mod kept;
#[cfg(test)]
mod maps;
#[cfg(test)]
mod memory;
#[cfg(test)]
mod texts;
#[cfg(test)]
mod told;
