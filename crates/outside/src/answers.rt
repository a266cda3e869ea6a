//! How a net answers the wants of a poll.
ghost use Rattle.std.specs.Prelude.{◌≡◌, ◌&&◌, All, map};
ghost use Rattle.outside.specs.Net.{asked_of};
ghost use Rattle.outside.specs.declared.types.Want.{Want};

use crate::Want;

/// What a net knows of its links while it answers a poll.
pub trait Answers {
    /// What holds of each want that it has answered.
    ghost met: { Want → Type 0 };

    /// Answers a want.
    fn answer(&self, want: &mut Want)
        ensures asked { asked_of want.new ≡ asked_of want.old }
        ensures met { met want.new };
}

/// Answers each want.
pub fn answer_all<A: Answers>(answers: &A, wants: &mut Vec<Want>)
    ensures asked { map asked_of wants.new.items ≡ map asked_of wants.old.items }
    ensures met { All A.met wants.new.items }
{
    for want in wants.iter_mut() {
        answers.answer(want);
    }
}

impl Want {
    /// Answers it by what its link is ready for. Nothing may be done that wasn't asked.
    pub fn answer(&mut self, to_read: bool, to_write: bool)
        ensures { self.new ≡ record (self.old) {
          may_read = self.old.read && to_read;
          may_write = self.old.write && to_write;
        } }
    {
        self.may_read = self.read && to_read;
        self.may_write = self.write && to_write;
    }
}
