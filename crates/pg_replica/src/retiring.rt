//! Keys of heads leave the edges, and are due no longer.

ghost use Rattle.std.specs.Prelude.{◌≡◌, if◌then◌else◌, length};
ghost use Rattle.pg_content.specs.Content.{covers_version};
ghost use Rattle.pg_edges.specs.Edges.{retired};
ghost use Rattle.pg_unacked.specs.Changes.{Redues};
ghost use Rattle.pg_replica.specs.Replica.{covered_heads, key_of, keys, without_keys};

use pg_base::{FileId, Vector, Version};
use pg_content::Content;
use pg_edges::{Edges, Key};
use pg_unacked::{Unacked, retire_due};

/// The key of a version.
pub(crate) fn key_of(version: &Version) -> Key
    ensures { result ≡ key_of version.now }
{
    Key::Version(version.head().stamp)
}

/// The keys of all these heads leave every edge. No edge goes.
pub(crate) fn retire_all(edges: &mut Edges, unacked: &mut Unacked, file: FileId, heads: &[Version])
    ensures edges { edges.new ≡ without_keys edges.old (keys heads.now) }
    ensures count { length edges.new ≡ length edges.old }
    ensures due { Redues unacked.old unacked.new file edges.old edges.new }
{
    for head in heads {
        retire_due(edges, unacked, file, key_of(head));
    }
}

/// The keys of those heads that the version's vector covers leave every edge. No edge goes. Where
/// it covers none the heads are not looked at.
pub(crate) fn retire_replaced(
    edges: &mut Edges,
    unacked: &mut Unacked,
    file: FileId,
    content: &Content,
    version: &Version,
)
    ensures edges { edges.new
        ≡ without_keys edges.old (keys (covered_heads content.now.heads version.now)) }
    ensures count { length edges.new ≡ length edges.old }
    ensures due { Redues unacked.old unacked.new file edges.old edges.new }
{
    if content.replaces(version) {
        retire_covered(edges, unacked, file, content.heads(), version);
    }
}

/// The keys of those of these heads that the version's vector covers leave every edge.
fn retire_covered(
    edges: &mut Edges,
    unacked: &mut Unacked,
    file: FileId,
    heads: &[Version],
    version: &Version,
)
    ensures edges { edges.new
        ≡ without_keys edges.old (keys (covered_heads heads.now version.now)) }
    ensures count { length edges.new ≡ length edges.old }
    ensures due { Redues unacked.old unacked.new file edges.old edges.new }
{
    let vector = &version.head().vector;
    for head in heads {
        retire_if_covered(edges, unacked, file, head, vector);
    }
}

/// The key of the head leaves every edge, if the vector has the head's number at its actor.
fn retire_if_covered(
    edges: &mut Edges,
    unacked: &mut Unacked,
    file: FileId,
    head: &Version,
    vector: &Vector,
)
    ensures edges { edges.new
        ≡ (if covers_version vector.now head.now then retired edges.old (key_of head.now)
        else edges.old) }
    ensures due { Redues unacked.old unacked.new file edges.old edges.new }
{
    if has_number(vector, head) {
        retire_due(edges, unacked, file, key_of(head));
    }
}

/// Whether the vector has the version's number at its actor.
fn has_number(vector: &Vector, version: &Version) -> bool
    ensures { result ≡ covers_version vector.now version.now }
{
    let head = version.head();
    head.number <= vector.get(head.actor())
}
