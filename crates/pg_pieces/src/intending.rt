//! An intention begins.

ghost use Rattle.std.specs.Prelude.{◌≡◌, OnOk};
ghost use Rattle.pg_pieces.specs.Intending.{begin_intent, with_begun_if};

use pg_store::msg::Work;
use pg_store::{Intent, IntentKey, Store};
use std::alloc::AllocError;

/// An intention began, if it is new.
fn note_begun(news: bool, work: &mut Work, key: IntentKey) -> Result<(), AllocError>
    ensures { OnOk result (work.new ≡ with_begun_if news work.old key) }
{
    if news {
        work.begun.push(key)?;
    }
    Ok(())
}

/// An intention begins, behind the others. Where one with its key stands that stays in its place,
/// and a Patch joins its entry. After out of memory a part may be done.
pub fn begin_intent(store: &mut Store, intent: Intent, work: &mut Work) -> Result<(), AllocError>
    ensures store { OnOk result (store.new ≡ (begin_intent store.old intent work.old).store) }
    ensures work { OnOk result (work.new ≡ (begin_intent store.old intent work.old).work) }
{
    let key = intent.key();
    let news = store.intents.begin(intent)?;
    note_begun(news, work, key)?;
    Ok(())
}
