//! A server that runs over a log: it takes packets from a net, keeps and takes their inputs, sends
//! what comes of them, and saves what it holds now and then.
//!
//! `serving` binds the port and makes the turns. `starting` opens the log, and `folding` lets a
//! server take its inputs again, from a checkpoint on or all, of which nothing is sent;
//! `pg_node_input` ties entries to inputs. `turning` is one take, `asking` makes the input of a
//! packet, `entering` enters it: `keeping` appends it, the server takes it, and `sending` sends the
//! reply to the port that asked, and then each message to the port of its addressee. `saving` is a
//! take and what is saved behind it.
//!
//! A packet is an input exactly where `read_packet` reads it as a call, a tick or a message; a
//! reply and other bytes are passed over. A call has the clock's moment, and a tick its moment and
//! its random word. The server itself looks at a message's sender and view.
//!
//! It knows no socket and no file of the machine: any `Net`, `Disk` and `Clock` serve. Of the disk
//! it touches the log and both slots of the name that its caller chose. It promises `Served` and
//! `IsAnswered`: what was sent is what the server sends behind its log's inputs, a restart and
//! those that were taken; at each moment a crash leaves a log with all old entries and the first of
//! the new ones, among them each of which a packet was sent, and slots that agree with it; and
//! which logs it does not go on with, and leaves as they were. `logs_go_on` and `states_are_saved`
//! say what follows.
//!
//! Definitions: `specs/Inputs` (what packets ask), `Sends`, `Entries`, `Logs`, `Slots`, `Savings`
//! (checkpoints), `Host` (`Served`), `Starts`, `Turn`, `Causes`. A further kind of input is a case
//! of `asked_by`, `ask`, `noted` and `input`.
#![tactic(auto)]

mod asking;
mod entering;
mod folding;
mod keeping;
mod laws;
mod saving;
mod sending;
mod serving;
mod starting;
mod turning;

pub use laws::{logs_are_of_one_kind, logs_go_on, states_are_saved};
pub use serving::serve;
