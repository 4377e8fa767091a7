//! The table of what can happen in a made schedule.

ghost use Rattle.std.specs.Prelude.{◌≡◌};
ghost use Rattle.pg_make.specs.Action.{next_action};

use crate::draw::below;
use pg_base::Policy;
use rand_pcg::Pcg32;

/// What a client asks for.
#[derive(Clone, Copy, Debug, PartialEq, Eq)]
pub(crate) enum Request {
    Mkdir,
    Create(Policy),
    Write,
    Cut,
    Rename,
    Unlink,
    Rmdir,
    Read,
}

/// What happens.
#[derive(Clone, Copy, Debug, PartialEq, Eq)]
pub(crate) enum Action {
    Ask(Request),
    Repeat,
    Lose,
    Restart,
    Tick,
    Deliver,
}

/// The actions, each of which is drawn as often as any other, so that deliveries are the most.
const ACTIONS: [Action; 16] = [
    Action::Ask(Request::Mkdir),
    Action::Ask(Request::Create(Policy::Last)),
    Action::Ask(Request::Create(Policy::Join)),
    Action::Ask(Request::Write),
    Action::Ask(Request::Cut),
    Action::Ask(Request::Rename),
    Action::Ask(Request::Unlink),
    Action::Ask(Request::Rmdir),
    Action::Ask(Request::Read),
    Action::Repeat,
    Action::Lose,
    Action::Restart,
    Action::Tick,
    Action::Deliver,
    Action::Deliver,
    Action::Deliver,
];

impl Action {
    /// The action that the next word names.
    pub(crate) fn next(words: &mut Pcg32) -> Action
        ensures { (result, words.new) ≡ next_action words.old }
    {
        ACTIONS[below(words, 16) as usize]
    }
}
