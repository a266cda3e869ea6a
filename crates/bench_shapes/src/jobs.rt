//! What a measuring program is asked for.
use crate::report::put;
use crate::shapes::{SHAPES, Shape};
use std::alloc::{AllocError, Global};
use std::io;
use std::rt::HostRuntime;

const PIECES: [usize; 4] = [1, 7, 1460, 65_536];

/// Requests of a shape that are fed in pieces of a size, so many blocks of them.
#[derive(Clone, Copy, Debug)]
pub struct Job {
    pub name: &'static str,
    pub shape: Shape,
    pub piece: usize,
    pub blocks: u64,
}

impl Job {
    /// A block: as many whole requests as fill a piece.
    pub fn block(&self, alloc: Global) -> Result<Vec<u8>, AllocError> {
        let request = self.shape.request(alloc)?;
        let mut block = Vec::new(alloc);
        for _ in 0..(self.piece / request.len().max(1)).saturating_add(1) {
            block.extend_from_slice(&request)?;
        }
        Ok(block)
    }

    /// Begins the line that tells what came of it.
    pub fn begin_line(&self, text: &mut Vec<u8>) -> Result<(), AllocError> {
        text.extend_from_slice(self.name.as_bytes())?;
        put(text, " piece ", self.piece as u64)
    }
}

// A block of each shape, in pieces of each size.
fn all(alloc: Global) -> Result<Vec<Job>, AllocError> {
    let mut jobs = Vec::new(alloc);
    for (name, shape) in SHAPES {
        for piece in PIECES {
            jobs.push(Job {
                name,
                shape,
                piece,
                blocks: 1,
            })?;
        }
    }
    Ok(jobs)
}

// The number that a word tells, or else this one.
fn number_or(word: Option<&str>, default: u64) -> u64 {
    match word {
        Some(word) => word.parse().unwrap_or(default),
        None => default,
    }
}

// What the words ask for.
fn jobs(alloc: Global, words: &str) -> Result<Vec<Job>, AllocError> {
    let mut words = words.split_ascii_whitespace();
    let Some(word) = words.next() else {
        return all(alloc);
    };
    let piece = number_or(words.next(), 1460);
    let blocks = number_or(words.next(), 1);
    let mut jobs = Vec::new(alloc);
    for (name, shape) in SHAPES {
        if word == name {
            jobs.push(Job {
                name,
                shape,
                piece: piece as usize,
                blocks,
            })?;
        }
    }
    Ok(jobs)
}

/// With the words SHAPE PIECE BLOCKS as the program's input that job; with none a block of each
/// shape in pieces of each size.
pub fn asked(rt: &HostRuntime) -> Result<Vec<Job>, AllocError> {
    let alloc = rt.alloc();
    match io::read_to_string(alloc, rt.stdin()) {
        Ok(words) => jobs(alloc, &words),
        Err(_) => Err(AllocError),
    }
}
