//! Exact tests on positions and segments, and what finds things by where they are: keys of vertices,
//! arcs in which a border stands once, segments near a place and conflicts among these.
#![tactic(auto)]

#[cfg(test)]
mod conflicts;
#[cfg(test)]
mod cuts;
#[cfg(test)]
mod given;
#[cfg(test)]
mod indexes;
#[cfg(test)]
mod positions;
#[cfg(test)]
mod shared;
#[cfg(test)]
mod squares;
#[cfg(test)]
mod vertices;
