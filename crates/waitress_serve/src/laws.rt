//! What holds of every input. The function does nothing: its clause is the law.
ghost use Rattle.std.specs.Prelude.{ℕ, List, ◌++◌};
ghost use Rattle.outside.specs.declared.types.Peer.{Peer};
ghost use Rattle.channel.specs.Output.{IsPrefix};
ghost use Rattle.waitress_serve.specs.Owed.{owed};

use adjust::ranges_are_kept;
use channel::responses_grow;

/// What is owed for a longer input begins with what is owed for a shorter one.
pub fn output_grows()
    ensures { (words : List (List ℕ)) (files : List (List ℕ × List ℕ)) (peer : Peer)
        (x y : List (ℕ × ℕ)) →
        IsPrefix (owed words files peer x).output (owed words files peer (x ++ y)).output }
{
    responses_grow();
    ranges_are_kept()
}
