//! What a server does where a client calls it: one module for each family of calls.
//!
//! `calls` has `do_call`, a match over the kinds of calls; `making` (`mkdir`, `create`), `naming`
//! (`rename`, `unlink`, `rmdir`), `bodies` (`write`, `cut`, `read`, `fresh`), `looks` (`ls`,
//! `stat`, `status`), `demoting`, `dropping`, `giving_up` and `forgetting` do them. Why a call is
//! refused is seen before, in `pg_checks`; what it makes it makes by the pieces of `pg_pieces`.
//!
//! It touches the server's `Store` and the event's `Work`. It runs no house rule and sends no cell:
//! both come behind it, at the end of the event (`pg_server`).
//!
//! What holds here (`laws`): a refused call changes nothing but that what is not here yet is asked
//! for; a call at the end of the clock does nothing; what is filling is not wished for.
//!
//! The definitions: one in `specs/` beside each module, and `specs/Calls`, `Refused`. The rules:
//! docs/RULES.md, "Client calls", "Replicas that go", "Servers are given up: views", "What was lost
//! is forgotten".
//!
//! A call more: its variant in `pg_call`, its checks in `pg_checks`, its definition and module
//! here, and a case of `do_call`.
#![tactic(auto)]

mod bodies;
mod calls;
mod demoting;
mod dropping;
mod forgetting;
mod giving_up;
mod laws;
mod looks;
mod making;
mod naming;

pub use calls::do_call;
pub use laws::{late_calls_do_nothing, refused_calls_only_ask, what_is_filling_is_not_wished};
pub use pg_cells::{call, house, intent, msg, replica, store};
pub use pg_intentions::{graph, repair};

pub mod cells {
    pub use pg_cells::{ack, cell, finish, settle, tick};
}

pub mod intentions {
    pub use pg_intentions::{ask_all, ask_begun, begin_end};
}
