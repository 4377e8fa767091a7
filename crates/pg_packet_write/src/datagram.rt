//! Whole packets.

ghost use Rattle.std.specs.Prelude.{◌≡◌, ◌↔◌, ◌++◌, IsTrue, OnOk};
ghost use Rattle.pg_packet_write.specs.Calls.{FitsReply};
ghost use Rattle.pg_packet_write.specs.Datagrams.{FitsContent, FitsRequest, content_bytes, kind_of, packet_bytes, request_bytes};
ghost use Rattle.pg_packet_write.specs.Messages.{FitsMessage};
ghost use Rattle.pg_packet_write.specs.declared.datagram.Content.TheVariants as content;

use crate::calls::{fits_call, write_call};
use crate::messages::{code_of, write_message};
use crate::replies::write_reply;
use pg_base::{Bytes, NodeId};
use pg_call::{Call, Reply};
use pg_codec::{write_bytes, write_u8, write_u32, write_u64};
use pg_msg::Message;
use std::alloc::AllocError;
use std::marker::Model;

/// What a client asks of a server: a call, or that it ticks.
#[derive(Debug, Drop)]
pub enum Request {
    Call(Call),
    Tick,
}

/// What a packet is for.
#[derive(Debug, Drop)]
pub enum Content {
    /// One server tells another.
    Message(Message),
    /// A client asks, under a number of its own.
    Call { number: u64, asked: Request },
    /// A server answers what was asked under the number.
    Reply { number: u64, reply: Reply },
}

/// A packet, which has a spelling: who sends it, in which view, and what it is for. A client is
/// server 0, in view 0.
#[derive(Debug, Drop)]
pub struct Datagram {
    pub from: NodeId,
    pub view: u64,
    pub content: Content,
}

impl Model for Datagram {
    ghost use Rattle.pg_packet_write.specs.DatagramValue.{DatagramValue};

    ghost Value = { DatagramValue };

    ghost use Rattle.pg_packet_write.specs.Datagrams.{FitsContent};

    ghost view = { λ d. record { from = d.from; view = d.view; content = d.content } };

    ghost invariant = { λ d. FitsContent d.content };
}

impl Datagram {
    /// A packet in which a server tells another the message.
    pub fn message(from: NodeId, view: u64, message: Message) -> Datagram
        requires { FitsMessage message }
        ensures { result ≡ record { from = from; view = view; content = content.Message message } }
    {
        Datagram {
            from,
            view,
            content: Content::Message(message),
        }
    }

    /// A client's packet, which asks under the number. `fits_request` is the test of what it asks
    /// for.
    pub fn call(number: u64, asked: Request) -> Datagram
        requires { FitsRequest asked }
        ensures { result ≡ record { from = 0; view = 0; content = content.Call number asked } }
    {
        Datagram {
            from: 0,
            view: 0,
            content: Content::Call { number, asked },
        }
    }

    /// A packet in which a server answers what was asked under the number.
    pub fn reply(from: NodeId, view: u64, number: u64, reply: Reply) -> Datagram
        requires { FitsReply reply }
        ensures { result ≡ record {
          from = from;
          view = view;
          content = content.Reply number reply;
        } }
    {
        Datagram {
            from,
            view,
            content: Content::Reply { number, reply },
        }
    }
}

/// Whether a packet can ask it: no path is longer than 65,535 bytes, and no path that stands where
/// an id may stand spells one.
pub fn fits_request(asked: &Request) -> bool
    ensures { IsTrue result ↔ FitsRequest asked.now }
{
    match asked {
        Request::Call(call) => fits_call(call),
        Request::Tick => true,
    }
}

/// How every packet begins.
const MARK: &[u8] = b"PG\x01";

/// Writes the packet at the end.
#[tactic(auto, unfolding(crate::specs::Datagrams::packet_bytes))]
pub fn write_packet(packet: &Datagram, out: &mut Bytes) -> Result<(), AllocError>
    ensures { OnOk result (out.new ≡ out.old ++ packet_bytes packet.now) }
{
    write_bytes(MARK, out)?;
    write_u8(kind_of(&packet.content), out)?;
    write_u32(packet.from, out)?;
    write_u64(packet.view, out)?;
    write_content(&packet.content, out)
}

/// The number of the kind of packet.
fn kind_of(content: &Content) -> u8
    ensures { result ≡ kind_of content.now }
{
    match content {
        Content::Message(message) => code_of(message),
        Content::Call { .. } => 27,
        Content::Reply { .. } => 28,
    }
}

#[tactic(auto, unfolding(crate::specs::Datagrams::content_bytes))]
fn write_content(content: &Content, out: &mut Bytes) -> Result<(), AllocError>
    requires { FitsContent content.now }
    ensures { OnOk result (out.new ≡ out.old ++ content_bytes content.now) }
{
    match content {
        Content::Message(message) => write_message(message, out),
        Content::Call { number, asked } => {
            write_u64(*number, out)?;
            write_request(asked, out)
        }
        Content::Reply { number, reply } => {
            write_u64(*number, out)?;
            write_reply(reply, out)
        }
    }
}

#[tactic(auto, unfolding(crate::specs::Datagrams::request_bytes))]
fn write_request(asked: &Request, out: &mut Bytes) -> Result<(), AllocError>
    requires { FitsRequest asked.now }
    ensures { OnOk result (out.new ≡ out.old ++ request_bytes asked.now) }
{
    match asked {
        Request::Call(call) => write_call(call, out),
        Request::Tick => write_u8(16, out),
    }
}
