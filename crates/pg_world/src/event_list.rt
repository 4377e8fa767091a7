//! The events of a run, in little memory.

ghost use Rattle.std.specs.Prelude.{[], ◌≡◌, ◌++◌, ◌∷◌, OnOk, IfOk, true, false};
ghost use Rattle.pg_world.specs.EventList.{events_of};

use pg_bag::Bag;
use pg_event::Event;
use std::alloc::{AllocError, Global};
use std::marker::Model;

/// Some events of a run, one behind the other, in 16 bytes and what a box holds.
#[derive(Drop)]
enum Item {
    /// Deliveries of the message with this number, so many.
    Deliveries { count: u32, number: u64 },
    /// Ticks of so many servers at this moment, each with the word 0: of this server, the next one,
    /// and so on.
    Ticks { count: u8, first: u32, moment: u64 },
    /// A loss.
    Lose(u64),
    /// A copy.
    Repeat(u64),
    /// Any other event.
    Other(Box<Event>),
}

impl Item {
    /// An event alone.
    fn new(alloc: Global, event: &Event) -> Result<Item, AllocError>
        ensures { IfOk result (λ item. events_of item ≡ event.now ∷ []) }
    {
        match event {
            Event::Deliver(number) => Ok(Item::Deliveries {
                count: 1,
                number: *number,
            }),
            Event::Lose(number) => Ok(Item::Lose(*number)),
            Event::Repeat(number) => Ok(Item::Repeat(*number)),
            Event::Tick {
                server,
                moment,
                word: 0,
            } => Ok(Item::Ticks {
                count: 1,
                first: *server,
                moment: *moment,
            }),
            _ => Ok(Item::Other(Box::new(alloc, event.copy()?)?)),
        }
    }

    /// Takes this event behind its own, where it is one more of them, and says whether it did.
    fn extend(&mut self, event: &Event) -> bool
        ensures more { result ≡ true → events_of self.new ≡ events_of self.old ++ event.now ∷ [] }
        ensures same { result ≡ false → self.new ≡ self.old }
    {
        match self {
            Item::Deliveries { count, number } => more_deliveries(count, *number, event),
            Item::Ticks {
                count,
                first,
                moment,
            } => more_ticks(count, *first, *moment, event),
            _ => false,
        }
    }
}

/// One delivery more.
fn more_deliveries(count: &mut u32, number: u64, event: &Event) -> bool
    ensures more { result ≡ true → events_of (Item.Deliveries count.new number)
        ≡ events_of (Item.Deliveries count.old number) ++ event.now ∷ [] }
    ensures same { result ≡ false → count.new ≡ count.old }
{
    let Event::Deliver(next) = event else {
        return false;
    };
    if *next != number || *count == u32::MAX {
        return false;
    }
    *count += 1;
    true
}

/// One tick more.
fn more_ticks(count: &mut u8, first: u32, moment: u64, event: &Event) -> bool
    ensures more { result ≡ true → events_of (Item.Ticks count.new first moment)
        ≡ events_of (Item.Ticks count.old first moment) ++ event.now ∷ [] }
    ensures same { result ≡ false → count.new ≡ count.old }
{
    let Event::Tick {
        server,
        moment: at,
        word,
    } = event
    else {
        return false;
    };
    let next = u64::from(first) + u64::from(*count);
    if *at != moment || *word != 0 || u64::from(*server) != next || *count == u8::MAX {
        return false;
    }
    *count += 1;
    true
}

/// Events, the first of them first.
#[derive(Drop)]
pub struct EventList {
    alloc: Global,
    earlier: Bag<Item>,
    last: Option<Item>,
}

impl Model for EventList {
    ghost use Rattle.std.specs.Prelude.{List};
    ghost use Rattle.pg_event.specs.declared.event.Event.{Event};

    ghost Value = { List Event };

    ghost use Rattle.pg_world.specs.EventListInside.{all_events};

    ghost view = { all_events };
}

impl EventList {
    /// No event. It takes no memory.
    pub fn new(alloc: Global) -> EventList
        ensures { result ≡ [] }
    {
        EventList {
            alloc,
            earlier: Bag::new(alloc),
            last: None,
        }
    }

    /// One event more. After a refusal the list is of no use.
    pub fn push(&mut self, event: &Event) -> Result<(), AllocError>
        ensures { OnOk result (self.new ≡ self.old ++ event.now ∷ []) }
    {
        if let Some(last) = &mut self.last
            && last.extend(event)
        {
            return Ok(());
        }
        let item = Item::new(self.alloc, event)?;
        if let Some(full) = self.last.replace(item) {
            self.earlier.push_back(full)?;
        }
        Ok(())
    }
}
