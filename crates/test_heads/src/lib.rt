//! Whole heads and what they say: rows that were worked out by hand, and all heads of some pieces,
//! beside the rules written plainly once more.
#![tactic(auto)]

#[cfg(test)]
mod bodies;
#[cfg(test)]
mod pieces;
#[cfg(test)]
mod plain;
#[cfg(test)]
mod plain_fields;
#[cfg(test)]
mod plain_path;
#[cfg(test)]
mod plain_text;
#[cfg(test)]
mod rows;
#[cfg(test)]
mod shown;
