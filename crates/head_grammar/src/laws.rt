//! What holds of every head. The function does nothing: its clauses are the laws.
ghost use Rattle.std.specs.Prelude.{◌≡◌, ◌≤◌, ◌<◌, ◌++◌, ℕ, List, [], None, Some, length, take};
ghost use Rattle.head_grammar.specs.Ends.{head_end};

/// Of all bytes one place is where the first head ends, if any is.
pub fn one_end()
    ensures empty { head_end [] ≡ None }
    ensures within { (bytes : List ℕ) (n : ℕ) → head_end bytes ≡ Some n →
        (4 ≤ n) × (n ≤ length bytes) }
    // A head alone ends where it ends, and no bytes behind it change that.
    ensures cut { (bytes : List ℕ) (n : ℕ) → head_end bytes ≡ Some n →
        head_end (take n bytes) ≡ Some n }
    ensures settled { (bytes more : List ℕ) (n : ℕ) → head_end bytes ≡ Some n →
        head_end (bytes ++ more) ≡ Some n }
    // Where none ends among some bytes, one may end behind them.
    ensures later { (bytes more : List ℕ) (n : ℕ) → head_end bytes ≡ None →
        head_end (bytes ++ more) ≡ Some n → length bytes < n }
{}
