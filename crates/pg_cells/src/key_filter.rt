//! Which keys are sent.

ghost use Rattle.std.specs.Prelude.{◌≡◌, ◌==◌, ◌&&◌};
ghost use Rattle.pg_base.specs.Id.{is_same_file};
ghost use Rattle.pg_edges.specs.Key.{is_same_key};
ghost use Rattle.pg_cells.specs.KeyFilter.{passes};
ghost use Rattle.pg_cells.specs.Sending.{is_linked, is_touched};

use pg_base::{FileId, NodeId};
use pg_edges::Key;
use pg_pieces::msg::{Linked, Touched};

/// The filter of unacknowledged keys: which of them are sent.
#[derive(Clone, Copy, Debug)]
pub(crate) enum KeyFilter<'a> {
    All,
    /// The keys that were touched on every edge, and all keys on the edges that were made.
    Changed {
        touched: &'a [Touched],
        linked: &'a [Linked],
    },
}

impl KeyFilter<'_> {
    /// Whether a key is sent that is on the edge of a file to a peer.
    pub fn has(&self, file: &FileId, peer: NodeId, key: &Key) -> bool
        ensures { result ≡ passes self.now file.now peer key.now }
    {
        match self {
            KeyFilter::All => true,
            KeyFilter::Changed { touched, linked } => {
                is_touched(touched, file, key) || is_linked(linked, file, peer)
            }
        }
    }
}

fn is_touched(touched: &[Touched], file: &FileId, key: &Key) -> bool
    ensures { result ≡ is_touched touched.now file.now key.now }
{
    touched.iter().any(|t| is_key_of(t, file, key))
}

fn is_key_of(touched: &Touched, file: &FileId, key: &Key) -> bool
    ensures { result
        ≡ (is_same_file touched.now.file file.now && is_same_key touched.now.key key.now) }
{
    touched.file.compare(file).is_eq() && touched.key.is_same(key)
}

/// Whether the edge of a file to a peer is among these.
fn is_linked(linked: &[Linked], file: &FileId, peer: NodeId) -> bool
    ensures { result ≡ is_linked linked.now file.now peer }
{
    linked.iter().any(|l| is_edge_of(l, file, peer))
}

fn is_edge_of(linked: &Linked, file: &FileId, peer: NodeId) -> bool
    ensures { result ≡ (is_same_file linked.now.file file.now && linked.now.peer == peer) }
{
    linked.file.compare(file).is_eq() && linked.peer == peer
}
