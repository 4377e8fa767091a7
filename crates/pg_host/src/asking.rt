//! What a packet asks of a server.

ghost use Rattle.std.specs.Prelude.{◌≡◌, Ok, IfSome};
ghost use Rattle.pg_node_input.specs.law_lengths.Packets.{IsAskedFew};
ghost use Rattle.pg_node_input.specs.law_lengths.law_spelled.Messages.{FitsInput};
ghost use Rattle.pg_host.specs.Entries.{IsShort, entry_for, input_of, noted_of};
ghost use Rattle.pg_host.specs.Inputs.{is_stop, is_stop_call};
ghost use Rattle.pg_host.specs.Turn.{Asks, HasCome};

use pg_call::{Call, CallKind};
use pg_msg::Packet;
use pg_net::Clock;
use pg_node_entry::{entries_are_short, entries_read_back};
use pg_node_input::call_fits;
use pg_node_input::server::Input;
use pg_node_input::spelled::message_fits;
use pg_packet_read::packets_read_back;
use pg_packet_write::{Content, Datagram, Request};

/// Whom a reply goes to.
#[derive(Clone, Copy, Debug, PartialEq, Eq)]
pub enum Back {
    /// What came was a message.
    Nobody,
    /// The port that a call came from, and the number that the client gave it.
    Client { port: u16, number: u64 },
}

/// An input, and whom its reply goes to.
#[derive(Debug, Drop)]
pub struct Asked {
    pub back: Back,
    pub input: Input,
}

/// What a packet from this port asks, with the clock's moment and word where it takes them. Nothing
/// where it is a reply.
pub fn ask<C: Clock>(clock: &mut C, from: u16, packet: Datagram) -> Option<Asked>
    requires { HasCome packet }
    ensures asks { Asks C.tells from packet result (C.told clock.old) (C.told clock.new) }
    ensures fits { IfSome result (λ a. FitsInput a.input) }
    ensures few { IfSome result (λ a. IsAskedFew a.input) }
    ensures short { IfSome result (λ a. IsShort (noted_of a.input)) }
    ensures read { IfSome result (λ a. input_of (entry_for a.input) ≡ Ok a.input) }
{
    entries_are_short();
    entries_read_back();
    packets_read_back();
    let Datagram {
        from: sender,
        view,
        content,
    } = packet;
    match content {
        Content::Message(message) => {
            message_fits(&message);
            let arrival = Packet {
                from: sender,
                view,
                message,
            };
            Some(Asked {
                back: Back::Nobody,
                input: Input::Arrival(arrival),
            })
        }
        Content::Call { number, asked } => {
            let moment = clock.now();
            let back = Back::Client { port: from, number };
            match asked {
                Request::Call(call) => {
                    call_fits(&call);
                    let input = Input::Call { moment, call };
                    Some(Asked { back, input })
                }
                Request::Tick => {
                    let random = clock.word();
                    let input = Input::Tick {
                        moment,
                        word: random,
                    };
                    Some(Asked { back, input })
                }
            }
        }
        Content::Reply { .. } => None,
    }
}

/// Whether an input is the call `stop`.
pub fn is_stop(input: &Input) -> bool
    ensures { result ≡ is_stop input.now }
{
    match input {
        Input::Call { call, .. } => is_stop_call(call),
        Input::Tick { .. } => false,
        Input::Arrival(_) => false,
        Input::Restart => false,
    }
}

fn is_stop_call(call: &Call) -> bool
    ensures { result ≡ is_stop_call call.now }
{
    call.kind() == CallKind::Stop
}
