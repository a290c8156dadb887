//! Tests of rings and of what stores them: parts of polygons and joined rings, rings laid in tables, the
//! numbers of rings in frames, how far boxes of rings reach, and features at positions.
#![tactic(auto)]

#[cfg(test)]
mod boxes;
#[cfg(test)]
mod frames;
#[cfg(test)]
mod given;
#[cfg(test)]
mod joining;
#[cfg(test)]
mod laid;
#[cfg(test)]
mod maps;
#[cfg(test)]
mod parts;
#[cfg(test)]
mod places;
#[cfg(test)]
mod turned;
