//! Tests of whole runs that are refused something: memory, a device, a line, or what is past a limit; and
//! of what is large.
#![tactic(auto)]

#[cfg(test)]
mod ample;
#[cfg(test)]
mod cuts;
#[cfg(test)]
mod devices;
#[cfg(test)]
mod failing_devices;
#[cfg(test)]
mod failing_writers;
#[cfg(test)]
mod limits;
#[cfg(test)]
mod long_texts;
#[cfg(test)]
mod maps;
#[cfg(test)]
mod memory;
#[cfg(test)]
mod told;
