//! Tests of the editor: an allocation that is refused changes neither map nor history, a copy of a map
//! is edited alone, and few pairs of segments are tested.
#![tactic(auto)]

#[cfg(test)]
mod answers;
#[cfg(test)]
mod copies;
#[cfg(test)]
mod edited;
#[cfg(test)]
mod jobs;
#[cfg(test)]
mod maps;
#[cfg(test)]
mod refused;
#[cfg(test)]
mod stage;
#[cfg(test)]
mod tests;
