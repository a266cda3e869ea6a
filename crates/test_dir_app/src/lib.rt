//! Requests on folders of files, row by row, with answers that were worked out by hand.
#![tactic(auto)]

#[cfg(test)]
mod asking;
#[cfg(test)]
mod contents;
#[cfg(test)]
mod media;
#[cfg(test)]
mod names;
#[cfg(test)]
mod shown;
