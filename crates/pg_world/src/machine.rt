//! The servers and the messages between them.

ghost use Rattle.std.specs.Prelude.{◌≡◌, ◌==◌, ◌++◌, ◌∷◌, [], ◌<◌, ◌≤◌, OnOk, IfOk, length, map, true, IsNone, ◌⊎◌, None, Some, slice_get};
ghost use Rattle.std.specs.Option.{option_copied};
ghost use Rattle.pg_event.specs.declared.quiet.Cause.TheVariants.{Owed};
ghost use Rattle.pg_register.specs.Flag.{is_removed};
ghost use Rattle.pg_run.specs.Journal.{message_at, to_live, without, without_to, bag};
ghost use Rattle.pg_run.specs.Run.{World, is_due, is_removal, is_server, start, idle_entry};
ghost use Rattle.pg_run.specs.Quiet.{lag, quiet_of, has_some};
ghost use Rattle.pg_server.specs.Owing.{owed};
ghost use Rattle.pg_world.specs.Stands.{Stands, EachStandsBehind, BagBehind, FirstOf, IsEntryBy, IsStepEntry, StandsBehind, StepsBehind, IsEntryOf, lives, of_one, removal_at, unless_removed, unless_to, void_at, void_call, void_giveup, void_removal};

use pg_bag::Bag;
use pg_base::{Items, NodeId};
use pg_call::Call;
use pg_event::{Cause, Entry, Event, Quiet, VoidCause};
use pg_msg::Sent;
use pg_register::is_removed;
use pg_server::{Input, Out, Server};
use pg_store::Store;
use std::alloc::{AllocError, Global};

/// The servers 1 to n, those that were removed, in that order, and the messages under way, in order
/// of sending.
#[derive(Drop)]
pub struct Machine {
    pub alloc: Global,
    pub servers: Vec<Server>,
    pub removed: Items<NodeId>,
    pub bag: Bag<Sent>,
}

impl Machine {
    /// Servers 1 to so many, that have taken nothing, and no message.
    pub fn new(alloc: Global, servers: u32) -> Result<Machine, AllocError>
        ensures stands { IfOk result (λ m. Stands m (start servers)) }
        ensures count { IfOk result (λ m. length m.servers.items ≡ servers) }
    {
        let mut all = Vec::new(alloc);
        for k in 0..servers {
            let server = Server::new(alloc, k + 1, servers)?;
            all.push(server)?;
        }
        Ok(Machine {
            alloc,
            servers: all,
            removed: Items::new(alloc),
            bag: Bag::new(alloc),
        })
    }

    /// Whether the run has a server of this number.
    fn has_server(&self, server: NodeId) -> bool
        ensures { result ≡ is_server (length self.now.servers.items) server }
    {
        1 <= server && server as usize <= self.servers.len()
    }

    /// Whether a server is removed.
    fn is_removed(&self, server: NodeId) -> bool
        ensures { result ≡ is_removed self.now.removed server }
    {
        is_removed(self.removed.as_slice(), server)
    }

    /// Whether the run has a server of this number that is not removed.
    pub fn is_live(&self, server: NodeId) -> bool
        ensures { result ≡ lives (length self.now.servers.items) self.now.removed server }
    {
        self.has_server(server) && !self.is_removed(server)
    }

    /// Why nothing happens at a server: there is none of this number, or it is removed.
    fn void_at(&self, server: NodeId) -> Option<VoidCause>
        ensures { result ≡ void_at (length self.now.servers.items) self.now.removed server }
    {
        if self.is_live(server) {
            return None;
        }
        if self.has_server(server) {
            return Some(VoidCause::Removed);
        }
        Some(VoidCause::NoServer)
    }

    /// The server of the removal with this number, counted from 1.
    fn removal_at(&self, number: u64) -> Option<NodeId>
        ensures { result ≡ removal_at self.now.removed number }
    {
        if number == 0 {
            return None;
        }
        self.removed.as_slice().get(number as usize - 1).copied()
    }

    /// Whether the removal with this number is that of a server.
    fn is_removal(&self, number: u64, server: NodeId) -> bool
        ensures { result ≡ is_removal self.now.removed number server }
    {
        match self.removal_at(number) {
            Some(removed) => removed == server,
            None => false,
        }
    }

    /// What a server holds. None where the run has no such server.
    pub fn store(&self, server: NodeId) -> Option<&Store>
        ensures held { (w : World) → Stands self.now w
            → 1 ≤ server → server ≤ length self.now.servers.items
            → option_copied result ≡ Some (w.stores server) }
        ensures nobody { (server ≡ 0) ⊎ (length self.now.servers.items < server) → IsNone result }
    {
        if !self.has_server(server) {
            return None;
        }
        Some(self.servers[server as usize - 1].store())
    }

    /// The message with this number, which leaves the bag.
    #[inline(always)]
    fn take_message(&mut self, number: u64) -> Option<Sent>
        ensures found { result ≡ message_at self.old.bag number }
        ensures bag { self.new.bag ≡ without self.old.bag number (message_at self.old.bag number) }
        ensures servers { self.new.servers ≡ self.old.servers }
        ensures removed { self.new.removed ≡ self.old.removed }
    {
        if number == 0 {
            return None;
        }
        self.bag.take(number as usize - 1)
    }

    /// The entry of an event at which no server did anything.
    fn idle_entry(&self, event: Event, void: Option<VoidCause>) -> Entry
        ensures { result ≡ idle_entry event void }
    {
        Entry {
            event,
            void,
            reply: None,
            made: Items::new(self.alloc),
            sent: Items::new(self.alloc),
        }
    }

    /// A copy of a message goes to the end of the bag, unless it is to who is removed.
    fn send_one(&mut self, message: &Sent) -> Result<(), AllocError>
        ensures bag { OnOk result
            (self.new.bag ≡ self.old.bag ++ unless_removed self.old.removed message.now) }
        ensures servers { self.new.servers ≡ self.old.servers }
        ensures removed { self.new.removed ≡ self.old.removed }
    {
        if !self.is_removed(message.to) {
            self.bag.push_back(message.copy()?)?;
        }
        Ok(())
    }

    /// Copies of these messages go to the end of the bag, but for those to who is removed.
    fn send(&mut self, sent: &[Sent]) -> Result<(), AllocError>
        ensures bag { OnOk result
            (self.new.bag ≡ self.old.bag ++ to_live self.old.removed sent.now) }
        ensures servers { self.new.servers ≡ self.old.servers }
        ensures removed { self.new.removed ≡ self.old.removed }
    {
        for message in sent {
            self.send_one(message)?;
        }
        Ok(())
    }

    /// A server is given an input.
    #[inline(always)]
    fn act(&mut self, event: Event, server: NodeId, input: Input) -> Result<Entry, AllocError>
        requires { is_server (length self.old.servers.items) server ≡ true }
        ensures servers { OnOk result (EachStandsBehind self.old self.new server input) }
        ensures bag { OnOk result (BagBehind self.old self.new server input) }
        ensures removed { OnOk result (self.new.removed ≡ self.old.removed) }
        ensures entry { IfOk result (IsEntryBy self.old event server input) }
        ensures count { OnOk result
            (length self.new.servers.items ≡ length self.old.servers.items) }
    {
        // A server that has failed belongs to a run that has failed, and that takes no event.
        let Ok(Out { reply, made, sent }) = self.servers[server as usize - 1].step(input) else {
            return Err(AllocError);
        };
        self.send(sent.as_slice())?;
        Ok(Entry {
            event,
            void: None,
            reply,
            made,
            sent,
        })
    }

    /// A server is given an input, unless that is void.
    fn serve(
        &mut self,
        event: Event,
        server: NodeId,
        input: Input,
        void: Option<VoidCause>,
    ) -> Result<Entry, AllocError>
        requires { void ≡ None → is_server (length self.old.servers.items) server ≡ true }
        ensures state { OnOk result (StepsBehind self.old self.new void event server input) }
        ensures entry { IfOk result (IsStepEntry self.old void event server input) }
        ensures count { OnOk result
            (length self.new.servers.items ≡ length self.old.servers.items) }
    {
        match void {
            Some(cause) => Ok(self.idle_entry(event, Some(cause))),
            None => self.act(event, server, input),
        }
    }

    /// Whether a call may come: a giveup is of the one that was removed so.
    fn is_due(&self, call: &Call) -> bool
        ensures { result ≡ is_due self.now.removed call.now }
    {
        match call {
            Call::Giveup { view, server } => self.is_removal(*view, *server),
            _ => true,
        }
    }

    /// Why a call to a live server is void.
    fn void_giveup(&self, call: &Call) -> Option<VoidCause>
        ensures { result ≡ void_giveup self.now.removed call.now }
    {
        if self.is_due(call) {
            return None;
        }
        Some(VoidCause::Unremoved)
    }

    /// Why a call is void: nothing happens at the server, or it is to give up one that is not the
    /// one of that removal.
    fn void_call(&self, server: NodeId, call: &Call) -> Option<VoidCause>
        ensures { result
            ≡ void_call (length self.now.servers.items) self.now.removed server call.now }
    {
        match self.void_at(server) {
            Some(cause) => Some(cause),
            None => self.void_giveup(call),
        }
    }

    /// A client calls a server.
    fn call(&mut self, server: NodeId, moment: u64, call: Call) -> Result<Entry, AllocError>
        ensures state { OnOk result
            (StandsBehind self.old self.new (Event.Call server moment call)) }
        ensures entry { IfOk result (IsEntryOf self.old (Event.Call server moment call)) }
        ensures count { OnOk result
            (length self.new.servers.items ≡ length self.old.servers.items) }
    {
        let event = Event::Call {
            server,
            moment,
            call: call.copy()?,
        };
        let void = self.void_call(server, &call);
        self.serve(event, server, Input::Call { moment, call }, void)
    }

    /// A server sends again what is not acknowledged.
    fn tick(&mut self, server: NodeId, moment: u64, word: u64) -> Result<Entry, AllocError>
        ensures state { OnOk result
            (StandsBehind self.old self.new (Event.Tick server moment word)) }
        ensures entry { IfOk result (IsEntryOf self.old (Event.Tick server moment word)) }
        ensures count { OnOk result
            (length self.new.servers.items ≡ length self.old.servers.items) }
    {
        let event = Event::Tick {
            server,
            moment,
            word,
        };
        let void = self.void_at(server);
        self.serve(event, server, Input::Tick { moment, word }, void)
    }

    /// The message with this number arrives.
    fn deliver(&mut self, number: u64) -> Result<Entry, AllocError>
        ensures state { OnOk result (StandsBehind self.old self.new (Event.Deliver number)) }
        ensures entry { IfOk result (IsEntryOf self.old (Event.Deliver number)) }
        ensures count { OnOk result
            (length self.new.servers.items ≡ length self.old.servers.items) }
    {
        let event = Event::Deliver(number);
        let Some(message) = self.take_message(number) else {
            return Ok(self.idle_entry(event, Some(VoidCause::NoMessage)));
        };
        if !self.is_live(message.to) {
            return Ok(self.idle_entry(event, None));
        }
        self.act(event, message.to, Input::Arrival(message.packet))
    }

    /// The message with this number is lost.
    fn lose(&mut self, number: u64) -> Entry
        ensures state { StandsBehind self.old self.new (Event.Lose number) }
        ensures entry { IsEntryOf self.old (Event.Lose number) result }
        ensures count { length self.new.servers.items ≡ length self.old.servers.items }
    {
        match self.take_message(number) {
            None => self.idle_entry(Event::Lose(number), Some(VoidCause::NoMessage)),
            Some(_lost) => self.idle_entry(Event::Lose(number), None),
        }
    }

    /// The message with this number, once more.
    fn copy_message(&self, number: u64) -> Result<Option<Sent>, AllocError>
        ensures { IfOk result (λ o. o ≡ message_at self.now.bag number) }
    {
        if number == 0 {
            return Ok(None);
        }
        match self.bag.get(number as usize - 1) {
            None => Ok(None),
            Some(message) => Ok(Some(message.copy()?)),
        }
    }

    /// The message with this number goes to the end of the bag once more.
    fn repeat(&mut self, number: u64) -> Result<Entry, AllocError>
        ensures state { OnOk result (StandsBehind self.old self.new (Event.Repeat number)) }
        ensures entry { IfOk result (IsEntryOf self.old (Event.Repeat number)) }
        ensures count { OnOk result
            (length self.new.servers.items ≡ length self.old.servers.items) }
    {
        let Some(again) = self.copy_message(number)? else {
            return Ok(self.idle_entry(Event::Repeat(number), Some(VoidCause::NoMessage)));
        };
        self.bag.push_back(again)?;
        Ok(self.idle_entry(Event::Repeat(number), None))
    }

    /// A server loses what it keeps in memory alone.
    fn restart(&mut self, server: NodeId) -> Result<Entry, AllocError>
        ensures state { OnOk result (StandsBehind self.old self.new (Event.Restart server)) }
        ensures entry { IfOk result (IsEntryOf self.old (Event.Restart server)) }
        ensures count { OnOk result
            (length self.new.servers.items ≡ length self.old.servers.items) }
    {
        let void = self.void_at(server);
        self.serve(Event::Restart(server), server, Input::Restart, void)
    }

    /// The messages to a server leave the bag.
    #[tactic(auto, using(crate::proofs::Bags::all_out))]
    fn drop_messages_to(&mut self, server: NodeId) -> Result<(), AllocError>
        ensures bag { OnOk result (self.new.bag ≡ without_to server self.old.bag) }
        ensures servers { OnOk result (self.new.servers ≡ self.old.servers) }
        ensures removed { OnOk result (self.new.removed ≡ self.old.removed) }
    {
        let mut left = Bag::new(self.alloc);
        while let Some(message) = self.bag.take(0) {
            push_unless_to(server, message, &mut left)?;
        }
        self.bag = left;
        Ok(())
    }

    /// Why a server cannot be removed: there is none, it is removed already, or it is the last one.
    fn void_removal(&self, server: NodeId) -> Option<VoidCause>
        ensures { result
            ≡ void_removal (length self.now.servers.items) self.now.removed server }
    {
        match self.void_at(server) {
            Some(cause) => Some(cause),
            None => {
                if self.removed.as_slice().len() + 1 == self.servers.len() {
                    return Some(VoidCause::Last);
                }
                None
            }
        }
    }

    /// A live server is gone.
    fn remove_live(&mut self, server: NodeId) -> Result<Entry, AllocError>
        ensures bag { OnOk result (self.new.bag ≡ without_to server self.old.bag) }
        ensures servers { OnOk result (self.new.servers ≡ self.old.servers) }
        ensures removed { OnOk result (self.new.removed ≡ self.old.removed ++ server ∷ []) }
        ensures entry { IfOk result (λ entry. entry ≡ idle_entry (Event.Remove server) None) }
        ensures count { OnOk result
            (length self.new.servers.items ≡ length self.old.servers.items) }
    {
        self.removed.push(server)?;
        self.drop_messages_to(server)?;
        Ok(self.idle_entry(Event::Remove(server), None))
    }

    /// A server is gone for good: it takes no further event, and no message goes to it. The last
    /// one stays.
    fn remove(&mut self, server: NodeId) -> Result<Entry, AllocError>
        ensures state { OnOk result (StandsBehind self.old self.new (Event.Remove server)) }
        ensures entry { IfOk result (IsEntryOf self.old (Event.Remove server)) }
        ensures count { OnOk result
            (length self.new.servers.items ≡ length self.old.servers.items) }
    {
        match self.void_removal(server) {
            Some(cause) => Ok(self.idle_entry(Event::Remove(server), Some(cause))),
            None => self.remove_live(server),
        }
    }

    /// One event.
    pub fn step(&mut self, event: Event) -> Result<Entry, AllocError>
        ensures state { OnOk result (StandsBehind self.old self.new event) }
        ensures entry { IfOk result (IsEntryOf self.old event) }
        ensures count { OnOk result
            (length self.new.servers.items ≡ length self.old.servers.items) }
    {
        match event {
            Event::Call {
                server,
                moment,
                call,
            } => self.call(server, moment, call),
            Event::Tick {
                server,
                moment,
                word,
            } => self.tick(server, moment, word),
            Event::Deliver(number) => self.deliver(number),
            Event::Lose(number) => Ok(self.lose(number)),
            Event::Repeat(number) => self.repeat(number),
            Event::Restart(server) => self.restart(server),
            Event::Remove(server) => self.remove(server),
        }
    }

    /// Whether a message is under way.
    pub fn has_message(&self) -> bool
        ensures { (w : World) → Stands self.now w → result ≡ has_some (bag w.journal) }
    {
        !self.bag.is_empty()
    }

    /// How many servers the run has.
    fn count(&self) -> u32
        requires { length self.now.servers.items ≤ 64 }
        ensures { result ≡ length self.now.servers.items }
    {
        self.servers.len() as u32
    }

    /// The server of this number.
    pub fn server_at(&self, server: NodeId) -> &Server
        requires { is_server (length self.now.servers.items) server ≡ true }
        ensures { (w : World) → Stands self.now w → result.now.store ≡ w.stores server }
    {
        &self.servers[server as usize - 1]
    }

    /// The first that a live server owes: of its intentions first, then keys, and then places that
    /// it holds back.
    fn owed_at(&self, server: NodeId) -> Option<Cause>
        ensures { (w : World) → Stands self.now w → result
            ≡ slice_get (of_one (length self.now.servers.items) w
            (λ s. map Owed (owed (w.stores s))) server) 0 }
    {
        if !self.is_live(server) {
            return None;
        }
        match self.server_at(server).owed() {
            Some(owing) => Some(Cause::Owed(owing)),
            None => None,
        }
    }

    /// The first that is owed, by server.
    fn owed(&self) -> Option<Cause>
        requires { length self.now.servers.items ≤ 64 }
        ensures { (w : World) → Stands self.now w → FirstOf result (length self.now.servers.items) w
            (λ s. map Owed (owed (w.stores s))) }
    {
        for k in 0..self.count() {
            if let Some(cause) = self.owed_at(k + 1) {
                return Some(cause);
            }
        }
        None
    }

    /// Whether this is the view behind all removals.
    fn is_last_view(&self, view: u64) -> bool
        ensures { result ≡ (view == length self.now.removed) }
    {
        view == self.removed.len() as u64
    }

    /// The cause that a live server has not entered the last removal, with its view.
    fn lag_at(&self, server: NodeId) -> Option<Cause>
        ensures { (w : World) → Stands self.now w → result
            ≡ slice_get (of_one (length self.now.servers.items) w (lag w) server) 0 }
    {
        if !self.is_live(server) {
            return None;
        }
        let view = self.server_at(server).store().view();
        if self.is_last_view(view) {
            return None;
        }
        Some(Cause::View { server, view })
    }

    /// The cause of the least live server that has not entered the last removal.
    fn lagging(&self) -> Option<Cause>
        requires { length self.now.servers.items ≤ 64 }
        ensures { (w : World) → Stands self.now w
            → FirstOf result (length self.now.servers.items) w (lag w) }
    {
        for k in 0..self.count() {
            if let Some(cause) = self.lag_at(k + 1) {
                return Some(cause);
            }
        }
        None
    }

    /// Whether all is done, or what is to be waited for first.
    pub fn quiet(&self) -> Quiet
        requires { length self.now.servers.items ≤ 64 }
        ensures { (w : World) → Stands self.now w
            → result ≡ quiet_of (length self.now.servers.items) w }
    {
        match self.bag.front() {
            Some(sent) => Quiet::Waits(Cause::Message(sent.summary())),
            None => match self.lagging() {
                Some(cause) => Quiet::Waits(cause),
                None => match self.owed() {
                    Some(cause) => Quiet::Waits(cause),
                    None => Quiet::Quiet,
                },
            },
        }
    }
}

/// A message goes to the end of a bag, unless it is to this server.
fn push_unless_to(server: NodeId, message: Sent, left: &mut Bag<Sent>) -> Result<(), AllocError>
    ensures { OnOk result (left.new ≡ left.old ++ unless_to server message) }
{
    if message.to != server {
        left.push_back(message)?;
    }
    Ok(())
}
