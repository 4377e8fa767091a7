//! What holds of all intentions: what is found behind each change.

ghost use Rattle.std.specs.Prelude.{◌≡◌, ℕ, List, length};
ghost use Rattle.std.specs.Cmp.{IsTotalOrder};
ghost use Rattle.std.specs.Ordering.{is_eq};
ghost use Rattle.pg_intent.specs.Key.{is_same_key, key_cmp};
ghost use Rattle.pg_intent.specs.Intents.{AimedIsFound, BegunIsFound, EndedIsFound, HaveOwnKeys, TurnedIsFound, aimed, begun, ended, turned_each};
ghost use Rattle.pg_intent.specs.declared.intent.Intent.{Intent};
ghost use Rattle.pg_intent.specs.declared.key.IntentKey.{IntentKey};

/// What is found behind a beginning: with its key the intention, or the two in one, and with each
/// other key what was found.
pub fn begun_intents_are_found()
    ensures { (is : List Intent) (i : Intent) (k : IntentKey) → BegunIsFound is i k }
{}

/// What is found behind an end: with its key nothing, and with each other key what was found.
pub fn ended_intents_are_gone()
    ensures { (is : List Intent) (gone k : IntentKey) → EndedIsFound is gone k }
{}

/// What is found behind an aim: with its key the intention with the new target, and with each other
/// key what was found.
pub fn aims_change_targets_only()
    ensures found { (is : List Intent) (one : IntentKey) (target : ℕ) (k : IntentKey)
        → AimedIsFound is one target k }
    ensures len { (is : List Intent) (one : IntentKey) (target : ℕ)
        → length (aimed is one target) ≡ length is }
{}

/// What is found where a server is removed: what asked it asks another one, a Bye and a Leave that
/// were for it are none any more, and with each other key what was found.
pub fn turned_intents_are_found()
    ensures found { (is : List Intent) (server to : ℕ) (k : IntentKey)
        → HaveOwnKeys is → TurnedIsFound is server to k }
    ensures keys { (is : List Intent) (ks : List IntentKey) (to : ℕ)
        → HaveOwnKeys is → HaveOwnKeys (turned_each is ks to) }
{}

/// The order in which one event begins intentions is total, and only keys of one intention tie.
pub fn keys_are_ordered()
    ensures total { IsTotalOrder key_cmp }
    ensures ties { (a b : IntentKey) → is_eq (key_cmp a b) ≡ is_same_key a b }
{}

/// Whatever begins, ends or is aimed, no two intentions have one key.
pub fn keys_stay_single()
    ensures begun { (is : List Intent) (i : Intent) → HaveOwnKeys is → HaveOwnKeys (begun is i) }
    ensures ended { (is : List Intent) (k : IntentKey) → HaveOwnKeys is → HaveOwnKeys (ended is k) }
    ensures aimed { (is : List Intent) (k : IntentKey) (target : ℕ)
        → HaveOwnKeys is → HaveOwnKeys (aimed is k target) }
{}
