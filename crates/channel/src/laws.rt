//! What holds of every input. The function does nothing: its clause is the law.
ghost use Rattle.std.specs.Prelude.{◌<◌, ◌++◌};
ghost use Rattle.outside.specs.declared.types.Peer.{Peer};
ghost use Rattle.request_stream.specs.declared.types.Limits.{Limits};
ghost use Rattle.wsgi.specs.declared.site.Site.{Site};
ghost use Rattle.channel.specs.Output.{Input, IsPrefix, Script, responses};

use request_stream::units_grow;

/// The answers to a longer input begin with those to a shorter one.
pub fn responses_grow()
    ensures { (limits : Limits) (site : Site) (script : Script) (peer : Peer) (x y : Input) →
        0 < limits.max_head → IsPrefix (responses limits site script peer x)
        (responses limits site script peer (x ++ y)) }
{
    units_grow();
}
