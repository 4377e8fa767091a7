//! The messages under way.

ghost use Rattle.std.specs.Prelude.{◌≡◌, ◌++◌, ◌∷◌, [], List, length, IfOk, OnOk, ◌==◌};
ghost use Rattle.pg_picture.specs.Messages.{is_for, message_at, split, with_copy, without, without_to};

use pg_base::NodeId;
use pg_msg::Summary;
use std::alloc::{AllocError, Global};
use std::marker::Model;

/// A message under way: what it is, at which height the piece of its way begins that is not drawn
/// yet, and whether it begins in front of the receiver's line, where the message was copied.
#[derive(Clone, Copy, Debug, PartialEq, Eq)]
pub struct Message {
    pub summary: Summary,
    pub since: u32,
    pub split: bool,
}

/// The messages under way, in the order in which they were sent. They are numbered from 1.
#[derive(Debug, Drop)]
pub struct Messages {
    values: Vec<Message>,
}

impl Model for Messages {
    ghost use Rattle.std.specs.Prelude.{List};
    ghost use Rattle.pg_picture.specs.declared.messages.Message.{Message};

    ghost Value = { List Message };

    ghost view = { λ m. m.values.items };
}

/// A message, whose way goes on in front of the receiver's line from this height on.
fn split(message: Message, height: u32) -> Message
    ensures { result ≡ split message height }
{
    Message {
        summary: message.summary,
        since: height,
        split: true,
    }
}

/// Whether the message is for this server.
pub(crate) fn is_for(server: NodeId, message: &Message) -> bool
    ensures { result ≡ is_for server message.now }
{
    message.summary.to == server
}

impl Messages {
    /// No message.
    pub fn new(alloc: Global) -> Self
        ensures { result ≡ [] }
    {
        Messages {
            values: Vec::new(alloc),
        }
    }

    pub fn as_slice(&self) -> &[Message]
        ensures { result.now ≡ self.now }
    {
        self.values.as_slice()
    }

    /// The message with this number, if there is one.
    pub fn get(&self, number: u64) -> Option<Message>
        ensures { result ≡ message_at self.now number }
    {
        if number == 0 {
            return None;
        }
        self.values.as_slice().get(number as usize - 1).copied()
    }

    /// Adds a message at the end.
    pub fn push(&mut self, message: Message) -> Result<(), AllocError>
        ensures { OnOk result (self.new ≡ self.old ++ message ∷ []) }
    {
        self.values.push(message)?;
        Ok(())
    }

    /// Takes the message with this number, if there is one.
    pub fn take(&mut self, number: u64) -> Option<Message>
        ensures found { result ≡ message_at self.old number }
        ensures rest { self.new ≡ without self.old number (message_at self.old number) }
    {
        let found = self.get(number)?;
        self.values.remove(number as usize - 1);
        Some(found)
    }

    /// Takes all messages for this server.
    pub fn drop_to(&mut self, server: NodeId)
        ensures { self.new ≡ without_to server self.old }
    {
        self.values.retain(|m| !is_for(server, m));
    }

    /// Copies the message with this number, if there is one, to the end. Both go on from this
    /// height.
    pub fn copy(&mut self, number: u64, height: u32) -> Result<Option<Message>, AllocError>
        ensures found { IfOk result (λ o. o ≡ message_at self.old number) }
        ensures bag { OnOk result (self.new
            ≡ with_copy self.old number height (message_at self.old number)) }
    {
        let Some(message) = self.get(number) else {
            return Ok(None);
        };
        let later = split(message, height);
        self.values[number as usize - 1] = later;
        self.values.push(later)?;
        Ok(Some(message))
    }
}
