//! Why a call of a buffer failed.
ghost use Rattle.std.specs.Prelude.{◌≡◌};

use outside::Failed;
use std::alloc::AllocError;

#[derive(Clone, Copy, Debug, PartialEq, Eq)]
pub enum BufferFault {
    /// The spill failed.
    Spill,
    NoMemory,
}

impl From<AllocError> for BufferFault {
    ghost use Rattle.std.specs.Prelude.{◌≡◌};
    ghost use Rattle.spill_buffer.specs.declared.fault.BufferFault.TheVariants.{NoMemory};

    ghost from_gives = { λ _ fault. fault ≡ NoMemory };

    fn from(_: AllocError) -> BufferFault {
        BufferFault::NoMemory
    }
}

impl From<Failed> for BufferFault {
    ghost use Rattle.std.specs.Prelude.{◌≡◌};
    ghost use Rattle.spill_buffer.specs.declared.fault.BufferFault.TheVariants.{Spill};

    ghost from_gives = { λ _ fault. fault ≡ Spill };

    fn from(_: Failed) -> BufferFault {
        BufferFault::Spill
    }
}
