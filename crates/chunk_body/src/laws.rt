//! What holds of every body. These functions do nothing: their clauses are the laws.
ghost use Rattle.std.specs.Prelude.{◌≡◌, ◌<◌, ◌⊎◌, List, ℕ, ◌++◌, [], length};
ghost use Rattle.chunk_body.specs.Coded.{IsCoded, IsLast, BeginsWithChunk};
ghost use Rattle.chunk_body.specs.Bodies.{Body, partial, coded, IsFront, IsSettled, LiesWithin};
ghost use Rattle.chunk_body.specs.Answers.{Notes, IsNoMemory};
ghost use Rattle.chunk_body.specs.declared.chunks.Fed.{Fed};

/// A coded body is one without chunks, or a chunk and a coded body.
pub fn two_cases()
    ensures last { (wire body : List ℕ) → IsLast wire body → IsCoded wire body }
    ensures chunk { (wire body : List ℕ) → BeginsWithChunk wire body → IsCoded wire body }
    ensures either { (wire body : List ℕ) → IsCoded wire body → IsLast wire body
        ⊎ BeginsWithChunk wire body }
{}

/// No body begins another, and each stands for one list of data.
pub fn one_body()
    ensures longest { (wire more a b : List ℕ) → IsCoded wire a → IsCoded (wire ++ more) b →
        0 < length more → ⊥ }
    ensures decoded { (wire a b : List ℕ) → IsCoded wire a → IsCoded wire b → a ≡ b }
{}

/// Of all bytes so far one answer is right, with one list of data.
pub fn one_answer()
    ensures { (max_body max_trailer : ℕ) (wire body piece got other : List ℕ) (f g : Fed) →
        Notes f max_body max_trailer wire body piece got →
        Notes g max_body max_trailer wire body piece other → (IsNoMemory f → ⊥) →
        (IsNoMemory g → ⊥) → (f ≡ g) × (got ≡ other) }
{}

/// At the front of any bytes stands one body, one part of a body or one refused byte.
pub fn one_front()
    ensures bodies { (max_body max_trailer : ℕ) (bytes : List ℕ) →
        IsFront max_body max_trailer bytes (coded max_body max_trailer bytes) }
    ensures only { (max_body max_trailer : ℕ) (bytes : List ℕ) (body : Body) →
        IsFront max_body max_trailer bytes body → body ≡ coded max_body max_trailer bytes }
    // Bytes behind a whole body, or behind a refused byte, change nothing.
    ensures settled { (max_body max_trailer : ℕ) (bytes more : List ℕ) →
        IsSettled (coded max_body max_trailer bytes) → coded max_body max_trailer (bytes ++ more)
        ≡ coded max_body max_trailer bytes }
    ensures within { (max_body max_trailer : ℕ) (bytes : List ℕ) →
        LiesWithin (length bytes) (coded max_body max_trailer bytes) }
    ensures empty { (max_body max_trailer : ℕ) → coded max_body max_trailer [] ≡ partial [] }
{}
