//! What a client asks of a server.

ghost use Rattle.std.specs.Prelude.{◌≡◌, ◌≢◌, IfOk, IfSome, IfNone, length};
ghost use Rattle.pg_call.specs.Call.{call_kind, kind_word};
ghost use Rattle.pg_call.specs.Fields.{call_fields};
ghost use Rattle.pg_call.specs.declared.call.CallKind.{CallKind};

use crate::limits::{Payload, ReadCount};
use pg_base::{FileId, NodeId, Policy, SharedBytes};
use pg_words::{HexWord, TextWord};
use std::alloc::AllocError;
use std::fmt;

/// What a call is about: a path, or an id.
#[derive(Debug, Drop)]
pub enum Target {
    /// The text of a path, as the client wrote it: it begins with a slash.
    Path(SharedBytes),
    Id(FileId),
}

/// What a client asks of a server. The text of a path is as the client wrote it: whether it is one,
/// the server tells.
#[derive(Debug, Drop)]
pub enum Call {
    /// A new directory.
    Mkdir {
        path: SharedBytes,
    },
    /// A new file with no byte.
    Create {
        path: SharedBytes,
        policy: Policy,
    },
    /// Bytes stand at the offset from then on, over what stood there.
    Write {
        path: SharedBytes,
        offset: u32,
        bytes: Payload,
    },
    /// The file is so long from then on: it is cut, or has zeros behind it.
    Cut {
        path: SharedBytes,
        length: u32,
    },
    /// What is shown from the offset on, at most so many bytes.
    Read {
        path: SharedBytes,
        offset: u32,
        count: ReadCount,
    },
    /// Whether every version that was announced to the server is there.
    Fresh {
        path: SharedBytes,
    },
    /// The names in a directory from this position on, counted from 0, at most 100 of them.
    Ls {
        path: SharedBytes,
        from: u32,
    },
    /// The replica at this server.
    Stat {
        target: Target,
    },
    /// A new place.
    Rename {
        from: SharedBytes,
        to: SharedBytes,
    },
    /// The file is taken away.
    Unlink {
        path: SharedBytes,
    },
    /// The directory is taken away, which shows no name.
    Rmdir {
        path: SharedBytes,
    },
    /// Something that was lost is given up.
    Forget {
        id: FileId,
    },
    /// The replica at this server is to be bronze.
    Demote {
        target: Target,
    },
    /// The replica at this server is to go.
    Drop {
        target: Target,
    },
    /// The removal with this number, which is of this server, is entered.
    Giveup {
        view: u64,
        server: NodeId,
    },
    /// What the server holds and waits for, in numbers.
    Status,
    /// The server is to end.
    Stop,
}

/// The calls, each named as it is called.
#[derive(Clone, Copy, Debug, PartialEq, Eq)]
pub enum CallKind {
    Mkdir,
    Create,
    Write,
    Cut,
    Read,
    Fresh,
    Ls,
    Stat,
    Rename,
    Unlink,
    Rmdir,
    Forget,
    Demote,
    Drop,
    Giveup,
    Status,
    Stop,
}

/// All kinds of calls.
const KINDS: [CallKind; 17] = [
    CallKind::Mkdir,
    CallKind::Create,
    CallKind::Write,
    CallKind::Cut,
    CallKind::Read,
    CallKind::Fresh,
    CallKind::Ls,
    CallKind::Stat,
    CallKind::Rename,
    CallKind::Unlink,
    CallKind::Rmdir,
    CallKind::Forget,
    CallKind::Demote,
    CallKind::Drop,
    CallKind::Giveup,
    CallKind::Status,
    CallKind::Stop,
];

impl Target {
    /// Copies the target. A path's text is shared.
    pub fn copy(&self) -> Result<Target, AllocError>
        ensures { IfOk result (λ t. t ≡ self.now) }
    {
        match self {
            Target::Path(path) => Ok(Target::Path(path.copy()?)),
            Target::Id(id) => Ok(Target::Id(*id)),
        }
    }
}

impl Call {
    pub fn kind(&self) -> CallKind
        ensures { result ≡ call_kind self.now }
    {
        match self {
            Call::Mkdir { .. } => CallKind::Mkdir,
            Call::Create { .. } => CallKind::Create,
            Call::Write { .. } => CallKind::Write,
            Call::Cut { .. } => CallKind::Cut,
            Call::Read { .. } => CallKind::Read,
            Call::Fresh { .. } => CallKind::Fresh,
            Call::Ls { .. } => CallKind::Ls,
            Call::Stat { .. } => CallKind::Stat,
            Call::Rename { .. } => CallKind::Rename,
            Call::Unlink { .. } => CallKind::Unlink,
            Call::Rmdir { .. } => CallKind::Rmdir,
            Call::Forget { .. } => CallKind::Forget,
            Call::Demote { .. } => CallKind::Demote,
            Call::Drop { .. } => CallKind::Drop,
            Call::Giveup { .. } => CallKind::Giveup,
            Call::Status => CallKind::Status,
            Call::Stop => CallKind::Stop,
        }
    }

    /// Copies the call. Bytes and the texts of paths are shared.
    pub fn copy(&self) -> Result<Call, AllocError>
        ensures { IfOk result (λ c. c ≡ self.now) }
    {
        Ok(match self {
            Call::Mkdir { path } => Call::Mkdir { path: path.copy()? },
            Call::Create { path, policy } => Call::Create {
                path: path.copy()?,
                policy: *policy,
            },
            Call::Write {
                path,
                offset,
                bytes,
            } => Call::Write {
                path: path.copy()?,
                offset: *offset,
                bytes: bytes.copy()?,
            },
            Call::Cut { path, length } => Call::Cut {
                path: path.copy()?,
                length: *length,
            },
            Call::Read {
                path,
                offset,
                count,
            } => Call::Read {
                path: path.copy()?,
                offset: *offset,
                count: *count,
            },
            Call::Fresh { path } => Call::Fresh { path: path.copy()? },
            Call::Ls { path, from } => Call::Ls {
                path: path.copy()?,
                from: *from,
            },
            Call::Stat { target } => Call::Stat {
                target: target.copy()?,
            },
            Call::Rename { from, to } => Call::Rename {
                from: from.copy()?,
                to: to.copy()?,
            },
            Call::Unlink { path } => Call::Unlink { path: path.copy()? },
            Call::Rmdir { path } => Call::Rmdir { path: path.copy()? },
            Call::Forget { id } => Call::Forget { id: *id },
            Call::Demote { target } => Call::Demote {
                target: target.copy()?,
            },
            Call::Drop { target } => Call::Drop {
                target: target.copy()?,
            },
            Call::Giveup { view, server } => Call::Giveup {
                view: *view,
                server: *server,
            },
            Call::Status => Call::Status,
            Call::Stop => Call::Stop,
        })
    }
}

impl CallKind {
    /// The call that the word names.
    pub fn read(word: &[u8]) -> Option<CallKind>
        ensures found { IfSome result (λ k. word.now ≡ kind_word k) }
        ensures none { IfNone result ((k : CallKind) → word.now ≢ kind_word k) }
    {
        KINDS
            .iter()
            .copied()
            .find(|kind| kind.word().as_bytes() == word)
    }

    /// The word that names the call.
    fn word(self) -> &'static str
        ensures { result.now ≡ kind_word self }
    {
        match self {
            CallKind::Mkdir => "mkdir",
            CallKind::Create => "create",
            CallKind::Write => "write",
            CallKind::Cut => "cut",
            CallKind::Read => "read",
            CallKind::Fresh => "fresh",
            CallKind::Ls => "ls",
            CallKind::Stat => "stat",
            CallKind::Rename => "rename",
            CallKind::Unlink => "unlink",
            CallKind::Rmdir => "rmdir",
            CallKind::Forget => "forget",
            CallKind::Demote => "demote",
            CallKind::Drop => "drop",
            CallKind::Giveup => "giveup",
            CallKind::Status => "status",
            CallKind::Stop => "stop",
        }
    }

    /// How many words stand behind its own.
    pub fn count(self) -> usize
        ensures { result ≡ length (call_fields self) }
    {
        match self {
            CallKind::Status | CallKind::Stop => 0,
            CallKind::Mkdir
            | CallKind::Fresh
            | CallKind::Stat
            | CallKind::Unlink
            | CallKind::Rmdir
            | CallKind::Forget
            | CallKind::Demote
            | CallKind::Drop => 1,
            CallKind::Create | CallKind::Cut | CallKind::Ls | CallKind::Rename | CallKind::Giveup =>
                2,
            CallKind::Write | CallKind::Read => 3,
        }
    }
}

impl fmt::Display for CallKind {
    ghost use Rattle.std.specs.Prelude.{Some};
    ghost use Rattle.pg_call.specs.Call.{kind_word};

    ghost output = { λ k. Some (kind_word k) };

    fn fmt<W: fmt::Write>(&self, f: &mut fmt::Formatter<W>) -> fmt::Result {
        f.write_str(self.word())
    }
}

/// `last` or `join`.
#[derive(Clone, Copy, Debug)]
pub struct PolicyWord(pub Policy);

impl fmt::Display for PolicyWord {
    ghost use Rattle.std.specs.Prelude.{Some};
    ghost use Rattle.pg_call.specs.Call.{policy_word};

    ghost output = { λ w. Some (policy_word w.0) };

    fn fmt<W: fmt::Write>(&self, f: &mut fmt::Formatter<W>) -> fmt::Result {
        match self.0 {
            Policy::Last => f.write_str("last"),
            Policy::Join => f.write_str("join"),
        }
    }
}

impl fmt::Display for Target {
    ghost use Rattle.std.specs.Prelude.{Some};
    ghost use Rattle.pg_call.specs.Call.{target_word};

    ghost output = { λ t. Some (target_word t) };

    fn fmt<W: fmt::Write>(&self, f: &mut fmt::Formatter<W>) -> fmt::Result {
        match self {
            Target::Path(path) => {
                let word = TextWord(path.as_slice());
                write!(f, "{word}")
            }
            Target::Id(id) => write!(f, "{id}"),
        }
    }
}

impl fmt::Display for Call {
    ghost use Rattle.std.specs.Prelude.{Some};
    ghost use Rattle.pg_call.specs.Call.{call_body};

    ghost output = { λ c. Some (call_body c) };

    fn fmt<W: fmt::Write>(&self, f: &mut fmt::Formatter<W>) -> fmt::Result {
        match self {
            Call::Mkdir { path } => {
                let path = TextWord(path.as_slice());
                write!(f, "mkdir {path}")
            }
            Call::Create { path, policy } => {
                let path = TextWord(path.as_slice());
                let policy = PolicyWord(*policy);
                write!(f, "create {path} {policy}")
            }
            Call::Write {
                path,
                offset,
                bytes,
            } => {
                let path = TextWord(path.as_slice());
                let bytes = HexWord(bytes.bytes().as_slice());
                write!(f, "write {path} {offset} {bytes}")
            }
            Call::Cut { path, length } => {
                let path = TextWord(path.as_slice());
                write!(f, "cut {path} {length}")
            }
            Call::Read {
                path,
                offset,
                count,
            } => {
                let path = TextWord(path.as_slice());
                let count = count.get();
                write!(f, "read {path} {offset} {count}")
            }
            Call::Fresh { path } => {
                let path = TextWord(path.as_slice());
                write!(f, "fresh {path}")
            }
            Call::Ls { path, from } => {
                let path = TextWord(path.as_slice());
                write!(f, "ls {path} {from}")
            }
            Call::Stat { target } => write!(f, "stat {target}"),
            Call::Rename { from, to } => {
                let from = TextWord(from.as_slice());
                let to = TextWord(to.as_slice());
                write!(f, "rename {from} {to}")
            }
            Call::Unlink { path } => {
                let path = TextWord(path.as_slice());
                write!(f, "unlink {path}")
            }
            Call::Rmdir { path } => {
                let path = TextWord(path.as_slice());
                write!(f, "rmdir {path}")
            }
            Call::Forget { id } => write!(f, "forget {id}"),
            Call::Demote { target } => write!(f, "demote {target}"),
            Call::Drop { target } => write!(f, "drop {target}"),
            Call::Giveup { view, server } => write!(f, "giveup {view} {server}"),
            Call::Status => f.write_str("status"),
            Call::Stop => f.write_str("stop"),
        }
    }
}
