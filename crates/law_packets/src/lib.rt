//! Where bytes stop being a packet: the faults of `read_packet` by the grammar of packets alone.
//!
//! `packet_of` (`pg_packet_read`) is a reader from left to right, and so are the faults that it
//! names. Here each of them is tied to the packets that there are and to their spelling: the bytes
//! before a fault begin some packet, and with the field at its place no packet begins
//! (`faults_are_of_the_grammar`).
//!
//! Packets of any length are meant: a text may say a length that no packet of 40,000 bytes has, and
//! the fault is then that the bytes end, or that there are over 40,000. And a list may promise
//! more than can come, as behind the flag of server 64 no other stands. Its items are read while
//! they are in order, so the fault is at the item, and the bytes before it begin a packet but for
//! the count (`BeginsButCount`).
//!
//! The definitions stand in `specs/Lists` and `specs/Faults`. The proofs go by what each reader
//! does where it fails (`IsTold` in `proofs/Telling`), one lemma for each way to join readers, and
//! one line for each field: a new field or kind gets its line beside its neighbours'.
#![tactic(auto)]

mod laws;

pub use laws::faults_are_of_the_grammar;
