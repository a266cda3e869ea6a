//! What a turn did, as it is told.
use crate::acts::{LeftAct, RightAct};
use crate::types::Cause;
use outside::{End, Noted, Notes, Spill};
use request_stream::Unit;
use std::collections::LinkedList;
use std::snapshot::Snapshot;

pub type LeftEntry<S> = Noted<LinkedList<LeftAct<S>>>;

pub type RightEntry<S> = Noted<LinkedList<RightAct<S>>>;

pub(crate) struct Looked;

impl<S: Spill> Notes<(), LinkedList<LeftAct<S>>> for Looked {
    ghost use Rattle.std.specs.Prelude.{[]};

    ghost noted = { λ _. [] };
}

impl<S: Spill> Notes<(), LinkedList<RightAct<S>>> for Looked {
    ghost use Rattle.std.specs.Prelude.{[]};

    ghost noted = { λ _. [] };
}

pub(crate) struct Puts;

impl<'a, S: Spill> Notes<(&'a Vec<Unit<S>>, u64), LinkedList<LeftAct<S>>> for Puts {
    ghost use Rattle.std.specs.Prelude.{[], ◌∷◌};
    ghost use Rattle.channel.specs.declared.acts.LeftAct.TheVariants.{Put};

    ghost noted = { λ x. Put x.0.now.items x.1 ∷ [] };
}

pub(crate) struct Drains;

impl<'a, S: Spill> Notes<&'a [u8], LinkedList<LeftAct<S>>> for Drains {
    ghost use Rattle.std.specs.Prelude.{[], ◌∷◌};
    ghost use Rattle.channel.specs.declared.acts.LeftAct.TheVariants.{Drained};

    ghost noted = { λ x. Drained x.now ∷ [] };
}

pub(crate) struct Kills;

impl<S: Spill> Notes<End, LinkedList<LeftAct<S>>> for Kills {
    ghost use Rattle.std.specs.Prelude.{[], ◌∷◌};
    ghost use Rattle.channel.specs.declared.acts.LeftAct.TheVariants.{Killed};

    ghost noted = { λ end. Killed end ∷ [] };
}

// A spill failed, and what broke is taken out at once.
impl<S: Spill> Notes<End, LinkedList<LeftAct<S>>> for Breaks {
    ghost use Rattle.std.specs.Prelude.{[], ◌∷◌};
    ghost use Rattle.channel.specs.declared.acts.LeftAct.TheVariants.{Buried, Killed};

    ghost noted = { λ end. Killed end ∷ Buried ∷ [] };
}

// More acts of the same turn.
pub(crate) struct Then;

impl<S: Spill> Notes<(Snapshot<LeftEntry<S>>, Snapshot<LeftEntry<S>>), LinkedList<LeftAct<S>>>
    for Then {
    ghost use Rattle.std.specs.Prelude.{◌++◌};

    ghost noted = { λ x. x.0.value.value ++ x.1.value.value };
}

impl<S: Spill> Notes<(Snapshot<RightEntry<S>>, Snapshot<RightEntry<S>>), LinkedList<RightAct<S>>>
    for Then {
    ghost use Rattle.std.specs.Prelude.{◌++◌};

    ghost noted = { λ x. x.0.value.value ++ x.1.value.value };
}

pub(crate) struct Buried;

impl<S: Spill> Notes<(), LinkedList<LeftAct<S>>> for Buried {
    ghost use Rattle.std.specs.Prelude.{[], ◌∷◌};
    ghost use Rattle.channel.specs.declared.acts.LeftAct.TheVariants.{Buried};

    ghost noted = { λ _. Buried ∷ [] };
}

pub(crate) struct Begins;

impl<S: Spill> Notes<Unit<S>, LinkedList<RightAct<S>>> for Begins {
    ghost use Rattle.std.specs.Prelude.{[], ◌∷◌};
    ghost use Rattle.channel.specs.declared.acts.RightAct.TheVariants.{Began};

    ghost noted = { λ unit. Began unit ∷ [] };
}

pub(crate) struct Written;

impl<'a, S: Spill> Notes<(&'a [u8], Option<bool>), LinkedList<RightAct<S>>> for Written {
    ghost use Rattle.std.specs.Prelude.{[], ◌∷◌};
    ghost use Rattle.channel.specs.declared.acts.RightAct.TheVariants.{Wrote};

    ghost noted = { λ x. Wrote x.0.now x.1 ∷ [] };
}

pub(crate) struct Breaks;

impl<S: Spill> Notes<Cause, LinkedList<RightAct<S>>> for Breaks {
    ghost use Rattle.std.specs.Prelude.{[], ◌∷◌};
    ghost use Rattle.channel.specs.declared.acts.RightAct.TheVariants.{Broke};

    ghost noted = { λ cause. Broke cause ∷ [] };
}
