//! A reader of a body in the chunked coding.
ghost use Rattle.std.specs.Prelude.{◌≡◌, ◌≤◌, ◌<◌, ◌+◌, ◌++◌, List, [], length, take, ℕ, false};
ghost use Rattle.std.specs.Prelude.{None, vec_len, vec_capacity, IfSome};
ghost use Rattle.chunk_body.specs.Reading.{IsSound, advance, reads, decodes, Reads};
ghost use Rattle.chunk_body.specs.Reading.{data_run as run_of, passed, has_ended};
ghost use Rattle.chunk_body.specs.Verdicts.{IsOpen};
ghost use Rattle.chunk_body.specs.Pieces.{IsEnd, ReadsPiece};
ghost use Rattle.chunk_body.specs.Answers.{IsNoMemory, IsFed, Gives, Leaves, lasting, Takes};
ghost use Rattle.chunk_body.specs.Answers.{most_of};

use crate::place::Place;
use crate::steps::next;
use byte_tables::Refusal;
use std::marker::Model;

/// What the bytes so far are.
#[derive(Clone, Copy, Debug, PartialEq, Eq, Drop)]
pub enum Fed {
    /// A part of a body.
    More,
    /// A whole body, which ended behind so many bytes of the piece.
    Done(usize),
    /// A body with a byte that is refused.
    Bad(Refusal),
    /// There was no memory, and the piece was not read.
    NoMemory,
}

// How reading ended, if it did.
#[derive(Clone, Copy, Debug, PartialEq, Eq, Drop)]
enum End {
    Open,
    Whole,
    Refused(Refusal),
}

/// A reader of one body, which comes in any pieces (RFC 9112, section 7.1).
#[derive(Debug, Drop)]
pub struct Chunks {
    max_body: u64,
    max_trailer: u64,
    taken: u64,
    place: Place,
}

impl Model for Chunks {
    ghost use Rattle.std.specs.Prelude.{◌≡◌, ◌≤◌, ◌<◌, false};
    ghost use Rattle.chunk_body.specs.Reading.{Reading, IsSound, has_ended};

    ghost Value = { Reading };

    ghost view = { λ c. record {
      max_body = c.max_body;
      max_trailer = c.max_trailer;
      taken =
          c.taken;
      place = c.place;
    } };

    ghost invariant = { λ c. record {
      trailer : 1 ≤ c.max_trailer;
      sound : IsSound c.max_trailer c.place;
      within : has_ended c.place ≡ false → c.taken < c.max_body;
    } };
}

impl Chunks {
    /// A reader that read nothing yet. A byte that makes the body `max_body` bytes long, its lines
    /// and trailer section counted, is refused, and so is one that makes the trailer section
    /// `max_trailer` bytes long.
    pub fn new(max_body: u64, max_trailer: u64) -> Chunks
        requires body { 1 ≤ max_body }
        requires trailer { 1 ≤ max_trailer }
        ensures reads { Reads max_body max_trailer result [] [] }
        ensures part { IsOpen max_body max_trailer [] [] }
        ensures going { lasting result ≡ None }
    {
        Chunks {
            max_body,
            max_trailer,
            taken: 0,
            place: Place::LineStart,
        }
    }

    /// Reads the next piece of the body, and appends the data to `room`.
    pub fn feed(&mut self, piece: &[u8], room: &mut Vec<u8>) -> Fed
        // What all bytes so far are, whatever came before this piece.
        ensures fed { Gives room.old.items room.new.items
            (λ got. IsFed result piece.now got self.old self.new) }
        // Behind the end and behind a refusal every call answers so, and changes nothing.
        ensures lasting { IfSome (lasting self.old) (λ f. (result ≡ f) × (self.new ≡ self.old)
            × (room.new.items ≡ room.old.items)) }
        ensures leaves { Leaves result self.new }
        ensures takes { Takes result (length piece.now) (lasting self.old) }
        ensures grows { length room.new.items ≤ length room.old.items
            + most_of result (length piece.now) }
        // Want of memory changes nothing.
        ensures memory { IsNoMemory result → (self.new ≡ self.old)
            × (room.new.items ≡ room.old.items) }
    {
        self.read_piece(piece, room)
    }

    // Whether the body ended, and how.
    fn end(&self) -> End
        ensures { IsEnd result self.now.place }
    {
        match self.place {
            Place::Over => End::Whole,
            Place::Refused(refusal) => End::Refused(refusal),
            _ => End::Open,
        }
    }

    // Reads one byte that is no data.
    #[tactic(auto, unfolding(crate::specs::Reading::advance, crate::specs::Reading::is_last))]
    fn read_byte(&mut self, byte: u8)
        requires { has_ended self.old.place ≡ false }
        ensures { self.new ≡ advance self.old byte }
    {
        self.place = if self.taken + 1 == self.max_body {
            Place::Refused(Refusal::BodyTooLarge(self.max_body))
        } else {
            next(self.place, byte, self.max_trailer)
        };
        self.taken += 1;
    }

    // Reads a run of data, or one byte.
    fn read_some(&mut self, rest: &[u8], room: &mut Vec<u8>) -> usize
        requires some { 0 < length rest.now }
        requires open { has_ended self.old.place ≡ false }
        requires room { vec_len room.old + length rest.now ≤ vec_capacity room.old }
        ensures count { (0 < result) × (result ≤ length rest.now) }
        ensures reads { self.new ≡ reads self.old (take result rest.now) }
        ensures room { room.new.items ≡ room.old.items ++ decodes self.old (take result rest.now) }
        ensures taken { self.new.taken ≡ self.old.taken + result }
        ensures len { vec_len room.new ≤ vec_len room.old + result }
        ensures capacity { vec_capacity room.old ≤ vec_capacity room.new }
    {
        let run = self.data_run(rest.len());
        if run == 0 {
            self.read_byte(rest[0]);
            return 1;
        }
        // `read_piece` has taken the memory.
        let Ok(()) = room.extend_from_slice(&rest[..run]) else {
            unreachable!()
        };
        self.pass(run);
        run
    }

    // How many of the next bytes are data that no limit refuses.
    fn data_run(&self, len: usize) -> usize
        requires some { 0 < len }
        requires open { has_ended self.now.place ≡ false }
        ensures run { result ≡ run_of self.now len }
        ensures sound { IsSound self.now.max_trailer self.now.place }
        ensures within { self.now.taken < self.now.max_body }
    {
        match self.place {
            Place::Data(left) => {
                let most = left.min(self.max_body - 1 - self.taken);
                if most < len as u64 {
                    most as usize
                } else {
                    len
                }
            }
            _ => 0,
        }
    }

    // Goes on behind so many bytes of data.
    fn pass(&mut self, count: usize)
        requires { (0 < count) × ((len : ℕ) × (count ≡ run_of self.old len)) }
        ensures { self.new ≡ passed self.old count }
    {
        if let Place::Data(left) = self.place {
            let count = count as u64;
            self.place = if left == count {
                Place::DataEnd
            } else {
                Place::Data(left - count)
            };
            self.taken += count;
        }
    }

    #[tactic(auto, unfolding(crate::specs::Answers::lasting))]
    fn read_piece(&mut self, piece: &[u8], room: &mut Vec<u8>) -> Fed
        ensures read { (got : List ℕ) × (room.new.items ≡ room.old.items ++ got)
            × ReadsPiece result piece.now self.old self.new got }
        ensures lasting { IfSome (lasting self.old) (λ f. (result ≡ f) × (self.new ≡ self.old)
            × (room.new.items ≡ room.old.items)) }
        ensures leaves { Leaves result self.new }
        ensures takes { Takes result (length piece.now) (lasting self.old) }
    {
        match self.end() {
            End::Whole => return Fed::Done(0),
            End::Refused(refusal) => return Fed::Bad(refusal),
            End::Open => {}
        }
        let Ok(()) = room.reserve(piece.len()) else {
            return Fed::NoMemory
        };
        let mut at = 0;
        while at < piece.len() {
            at += self.read_some(&piece[at..], room);
            match self.end() {
                End::Whole => return Fed::Done(at),
                End::Refused(refusal) => return Fed::Bad(refusal),
                End::Open => {}
            }
        }
        Fed::More
    }
}
