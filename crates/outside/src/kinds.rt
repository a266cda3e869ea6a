//! The names of proxy headers.
ghost use Rattle.std.specs.Prelude.{◌≡◌};
ghost use Rattle.outside.specs.Kinds.{kind_name};

use crate::Kind;

impl Kind {
    /// The name of its header, in lower case.
    pub fn name(self) -> &'static [u8]
        ensures { result.now ≡ kind_name self }
    {
        match self {
            Kind::Forwarded => b"forwarded",
            Kind::For => b"x-forwarded-for",
            Kind::Host => b"x-forwarded-host",
            Kind::Proto => b"x-forwarded-proto",
            Kind::Port => b"x-forwarded-port",
            Kind::By => b"x-forwarded-by",
        }
    }
}
