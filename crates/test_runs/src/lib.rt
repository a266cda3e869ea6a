//! Worked runs of the server, and each call that takes memory with enough of it.
//!
//! What a clause says isn't tested here: the rows are those of other sources, and the calls show that
//! want of memory isn't answered without need.
#![tactic(auto)]

#[cfg(test)]
mod buffers;
#[cfg(test)]
mod case;
#[cfg(test)]
mod connections;
#[cfg(test)]
mod crowd;
#[cfg(test)]
mod disk;
#[cfg(test)]
mod echoes;
#[cfg(test)]
mod folders;
#[cfg(test)]
mod kinds;
#[cfg(test)]
mod many;
#[cfg(test)]
mod spilled;
#[cfg(test)]
mod tables;
#[cfg(test)]
mod texts;
#[cfg(test)]
mod words;
