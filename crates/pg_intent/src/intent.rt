//! One intention of a server.

ghost use Rattle.std.specs.Prelude.{◌≡◌, IfOk, OnErr, OnOk};
ghost use Rattle.pg_intent.specs.Intent.{aimed_at, child_of, file_of, is_about, key_of, kind_of, rejoined, target_of};

use crate::key::IntentKey;
use crate::kind::IntentKind;
use pg_base::{FileId, NodeId};
use pg_entries::Entry;
use std::alloc::AllocError;

/// What a server intends until others have answered. A target is the server that is asked: 0 for
/// none. A Bye and a Leave are for their peer alone.
#[derive(Debug, Drop)]
pub enum Intent {
    /// To tell a peer that the replica with this birth is gone. `peer_birth` is the birth of the
    /// peer's replica.
    Bye {
        file: FileId,
        birth: u64,
        peer: NodeId,
        peer_birth: u64,
    },
    /// To find a live gold replica of the file.
    Seek {
        file: FileId,
        target: NodeId,
    },
    /// To get the replica with this birth filled.
    Fill {
        file: FileId,
        birth: u64,
        target: NodeId,
    },
    /// To carry a newer place of a child, with its flags, to some replica of the directory.
    Patch {
        dir: FileId,
        entry: Entry,
        target: NodeId,
    },
    /// To ask a holder of a child that the directory lists for its place.
    Confirm {
        dir: FileId,
        child: FileId,
        target: NodeId,
    },
    /// To ask a gold peer for leave to drop the replica. `peer_birth` is the birth of the peer's
    /// replica.
    Leave {
        file: FileId,
        peer: NodeId,
        peer_birth: u64,
    },
}

impl Intent {
    pub fn key(&self) -> IntentKey
        ensures { result ≡ key_of self.now }
    {
        match self {
            Intent::Bye {
                file,
                birth,
                peer,
                ..
            } => IntentKey::Bye {
                file: *file,
                birth: *birth,
                peer: *peer,
            },
            Intent::Seek { file, .. } => IntentKey::Seek { file: *file },
            Intent::Fill { file, .. } => IntentKey::Fill { file: *file },
            Intent::Patch { dir, entry, .. } => IntentKey::Patch {
                dir: *dir,
                child: entry.child,
            },
            Intent::Confirm { dir, child, .. } => IntentKey::Confirm {
                dir: *dir,
                child: *child,
            },
            Intent::Leave { file, .. } => IntentKey::Leave { file: *file },
        }
    }

    pub fn kind(&self) -> IntentKind
        ensures { result ≡ kind_of self.now }
    {
        match self {
            Intent::Bye { .. } => IntentKind::Bye,
            Intent::Seek { .. } => IntentKind::Seek,
            Intent::Fill { .. } => IntentKind::Fill,
            Intent::Patch { .. } => IntentKind::Patch,
            Intent::Confirm { .. } => IntentKind::Confirm,
            Intent::Leave { .. } => IntentKind::Leave,
        }
    }

    /// The file that an intention is about, or the directory, where it is about a child of one.
    pub fn file(&self) -> FileId
        ensures { result ≡ file_of self.now }
    {
        match self {
            Intent::Bye { file, .. } => *file,
            Intent::Seek { file, .. } => *file,
            Intent::Fill { file, .. } => *file,
            Intent::Patch { dir, .. } => *dir,
            Intent::Confirm { dir, .. } => *dir,
            Intent::Leave { file, .. } => *file,
        }
    }

    /// The child of the directory, where it is about one.
    pub fn child(&self) -> Option<FileId>
        ensures { result ≡ child_of self.now }
    {
        match self {
            Intent::Patch { entry, .. } => Some(entry.child),
            Intent::Confirm { child, .. } => Some(*child),
            _ => None,
        }
    }

    /// The server that is asked: 0 for none.
    pub fn target(&self) -> NodeId
        ensures { result ≡ target_of self.now }
    {
        match self {
            Intent::Bye { peer, .. } => *peer,
            Intent::Seek { target, .. } => *target,
            Intent::Fill { target, .. } => *target,
            Intent::Patch { target, .. } => *target,
            Intent::Confirm { target, .. } => *target,
            Intent::Leave { peer, .. } => *peer,
        }
    }

    /// Whether this is its file, its directory or its child.
    pub fn is_about(&self, id: FileId) -> bool
        ensures { result ≡ is_about id self.now }
    {
        if self.file().compare(&id).is_eq() {
            return true;
        }
        match self.child() {
            Some(child) => child.compare(&id).is_eq(),
            None => false,
        }
    }

    /// Asks this server from now on. A Bye and a Leave stay with their peer.
    pub fn aim(&mut self, to: NodeId)
        ensures { self.new ≡ aimed_at to self.old }
    {
        match self {
            Intent::Seek { target, .. } => *target = to,
            Intent::Fill { target, .. } => *target = to,
            Intent::Patch { target, .. } => *target = to,
            Intent::Confirm { target, .. } => *target = to,
            Intent::Bye { .. } => {}
            Intent::Leave { .. } => {}
        }
    }

    /// Begins again, as the other of the same key. A Patch joins the other's entry and keeps its
    /// target. Of the other kinds nothing changes.
    pub(crate) fn rejoin(&mut self, other: Intent) -> Result<(), AllocError>
        ensures ok { OnOk result (self.new ≡ rejoined self.old other) }
        ensures err { OnErr result (self.new ≡ self.old) }
    {
        if let Intent::Patch { entry, .. } = self {
            if let Intent::Patch { entry: more, .. } = other {
                let mut both = entry.copy()?;
                both.join(more)?;
                *entry = both;
            }
        }
        Ok(())
    }

    /// Copies the intention.
    pub fn copy(&self) -> Result<Intent, AllocError>
        ensures { IfOk result (λ intent. intent ≡ self.now) }
    {
        Ok(match self {
            Intent::Bye {
                file,
                birth,
                peer,
                peer_birth,
            } => Intent::Bye {
                file: *file,
                birth: *birth,
                peer: *peer,
                peer_birth: *peer_birth,
            },
            Intent::Seek { file, target } => Intent::Seek {
                file: *file,
                target: *target,
            },
            Intent::Fill {
                file,
                birth,
                target,
            } => Intent::Fill {
                file: *file,
                birth: *birth,
                target: *target,
            },
            Intent::Patch { dir, entry, target } => Intent::Patch {
                dir: *dir,
                entry: entry.copy()?,
                target: *target,
            },
            Intent::Confirm { dir, child, target } => Intent::Confirm {
                dir: *dir,
                child: *child,
                target: *target,
            },
            Intent::Leave {
                file,
                peer,
                peer_birth,
            } => Intent::Leave {
                file: *file,
                peer: *peer,
                peer_birth: *peer_birth,
            },
        })
    }
}
