//! What the kinds in memory tell: all of it, and just what they hold. These functions do nothing:
//! their clauses are the laws.
ghost use Rattle.std.specs.Prelude.{◌≡◌, ◌<◌, ◌↔◌, ℕ, IsTrue, None, length};
ghost use Rattle.outside.specs.Memory.{MemSinkState, MemSpillState, MemSpillsState};
ghost use Rattle.outside.specs.MemLink.{MemLinkState};
ghost use Rattle.outside.specs.MemNet.{MemNetState, first_due};
ghost use Rattle.outside.specs.Net.{last_moment};
ghost use Rattle.outside.specs.Tree.{MemEntryState, MemTreeState};

use crate::{
    Link, MemEntry, MemLink, MemNet, MemSink, MemSpill, MemSpills, MemTree, Net, Sink, Spill,
    Spills, Tree, TreeEntry,
};

/// A net in memory tells what it holds.
pub fn mem_net_tells()
    ensures tells { IsTrue ⟦<MemNet as Net>⟧.tells }
    ensures state { (net : MemNetState) → ⟦<MemNet as Net>⟧.state net ≡ net.state }
    ensures plan { (net : MemNetState) → ⟦<MemNet as Net>⟧.plan net ≡ net.plan }
    ensures moment { (net : MemNetState) →
        ⟦<MemNet as Net>⟧.moment net ≡ last_moment net.state.last }
    ensures taken { (net : MemNetState) (key : ℕ) →
        ⟦<MemNet as Net>⟧.taken net key ↔ key < length net.state.given }
    ensures nobody { (net : MemNetState) →
        ⟦<MemNet as Net>⟧.nobody net ↔ first_due net.waiting net.state.polls ≡ None }
    ensures bind_faults { (net : MemNetState) →
        ⟦<MemNet as Net>⟧.bind_faults net ≡ net.bind_faults }
    ensures poll_faults { (net : MemNetState) →
        ⟦<MemNet as Net>⟧.poll_faults net ≡ net.poll_faults }
{}

/// A link in memory tells what it holds.
pub fn mem_link_tells()
    ensures tells { IsTrue ⟦<MemLink as Link>⟧.tells }
    ensures state { (link : MemLinkState) → ⟦<MemLink as Link>⟧.state link ≡ link.state }
    ensures plan { (link : MemLinkState) → ⟦<MemLink as Link>⟧.plan link ≡ link.plan }
    ensures key { (link : MemLinkState) → ⟦<MemLink as Link>⟧.key link ≡ link.key }
    ensures faults { (link : MemLinkState) → ⟦<MemLink as Link>⟧.faults link ≡ link.faults }
{}

/// A spill in memory tells what it holds.
pub fn mem_spill_tells()
    ensures tells { IsTrue ⟦<MemSpill as Spill>⟧.tells }
    ensures content { (spill : MemSpillState) →
        ⟦<MemSpill as Spill>⟧.content spill ≡ spill.content }
    ensures size { (spill : MemSpillState) →
        ⟦<MemSpill as Spill>⟧.size spill ≡ length spill.content }
    ensures faults { (spill : MemSpillState) → ⟦<MemSpill as Spill>⟧.faults spill ≡ spill.faults }
    ensures settled { (spills : MemSpillsState) →
        ⟦<MemSpills as Spills>⟧.faults spills ≡ spills.faults }
{}

/// A tree in memory and its entries tell what they hold.
pub fn mem_tree_tells()
    ensures tells { IsTrue ⟦<MemTree as Tree>⟧.tells }
    ensures files { (tree : MemTreeState) → ⟦<MemTree as Tree>⟧.files tree ≡ tree.files }
    ensures faults { (tree : MemTreeState) → ⟦<MemTree as Tree>⟧.faults tree ≡ tree.faults }
    ensures entry { IsTrue ⟦<MemEntry as TreeEntry>⟧.tells }
    ensures file { (entry : MemEntryState) → ⟦<MemEntry as TreeEntry>⟧.file entry ≡ entry.file }
    ensures sized { (entry : MemEntryState) → ⟦<MemEntry as TreeEntry>⟧.sized entry ≡ entry.sized }
    ensures entry_faults { (entry : MemEntryState) →
        ⟦<MemEntry as TreeEntry>⟧.faults entry ≡ entry.faults }
{}

/// A sink in memory tells what it holds.
pub fn mem_sink_tells()
    ensures tells { IsTrue ⟦<MemSink as Sink>⟧.tells }
    ensures written { (sink : MemSinkState) → ⟦<MemSink as Sink>⟧.written sink ≡ sink.written }
    ensures faults { (sink : MemSinkState) → ⟦<MemSink as Sink>⟧.faults sink ≡ sink.faults }
{}
