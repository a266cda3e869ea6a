//! How the names of pairs are written.
ghost use Rattle.std.specs.Prelude.{◌≡◌, ℕ};

/// What becomes of each byte of a name.
pub trait Letters {
    ghost form: { ℕ → ℕ };

    fn of(byte: u8) -> u8
        ensures { result ≡ form byte };
}
