//! All that holds of all runs, in one record, whoever runs the servers: each law says what it
//! stands on, and the others say that. The record is `LawsOfRuns` in `specs/AllLaws`; what is cited
//! of each law, with its premises, stands in `specs/Joined`, and `proofs/Joined` puts each under
//! the next. That all that is carried is known, places and flags together, is proved here.
//!
//! Each field of `LawsOfRuns` is a clause of `run`, and `replay` has the record as one: a law that
//! is promised to a user is a field there, and one that only other laws need is a field of
//! `AreCited` alone. `laws_are_cited` calls the function of each law, so that its clauses are at
//! hand, and lists them in `AreCited`; `laws_of_runs` takes the record from there.
//!
//! The order in `proofs/Joined` is the order in which laws stand on each other: names, views,
//! intentions, births, places, golds, ticks, contents, edges, flags, what is carried, names that
//! were taken, drops, listings, quiet runs, repair. A law may stand only on those before it. So
//! crates of laws can be proved in any order, side by side.
//!
//! A new law costs a call in `laws_are_cited`, a field of `specs/Joined`, its line in
//! `proofs/Joined`, and, if it is promised, one of `specs/AllLaws`. A new kind of message costs a
//! line in `proofs/Carried`.

ghost use Rattle.std.specs.Prelude.{ℕ};
ghost use Rattle.pangaea.specs.AllLaws.{LawsOfRuns};
ghost use Rattle.pangaea.specs.Joined.{AreCited, CarriedStandsOn};

use law_acks::{runs_grow, runs_keep_edges};
use law_bodies::{bodies_answer_wants, first_harbingers_ask};
use law_confirms::confirms_begin_and_stay;
use law_deltas::wants_get_the_shortest_change;
use law_determined::names_are_determined;
use law_forgotten::forgets_stay;
use law_house::rules_go_by_steps;
use law_intents::order::{all_is_named, house_is_in_order, servers_are_whole, what_begins_is_new};
use law_intents::{intentions_are_in_order, nothing_is_left_to_do};
use law_links::asks_link_the_asker;
use law_lists::{removals_stay, returns_list_a_child};
use law_repair::births::{
    births_are_alone, births_are_known, births_move_on, edges_follow_births, events_of_leaving,
    gone_stays_gone,
};
use law_repair::contents::{
    clocks_end_first, contents_are_states, kept_deltas_are_latest, one_is_asked,
    runs_make_histories, sources_announced, states_are_heads,
};
use law_repair::golds::{flags_are_own, golds_are_named, golds_are_seen};
use law_repair::leaving::{
    drops_are_safe, drops_leave_all, heard_edges_are_known, what_went_is_over,
};
use law_repair::listings::listings_are_kept;
use law_repair::places::{one_place_a_stamp, places_were_made};
use law_repair::quiet::{quiet_names_form_a_tree, quiet_servers_agree, quiet_stores_agree};
use law_repair::{
    full_replicas_come, full_replicas_stay, golds_raise_none, kept_runs_are_repaired,
    kept_things_are_connected,
};
use law_rests::removed_servers_rest;
use law_returns::full::full_replicas_have_places;
use law_returns::names::names_are_what_was_taken;
use law_returns::returns_are_justified;
use law_stamps::stamps_are_drawn_once;
use law_steps::{confirms_begin_only, intentions_begin_in_turn, refusals_change_nothing};
use law_ticks::{restarts_lose_wishes, ticks_send_what_is_owed};
use law_took::replicas_took_what_came;
use law_views::{messages_are_of_views, views_are_prefixes};
use law_wants::an_event_asks_one;
use pg_run::{quiet_is_told, takes_are_what_came};

/// All that servers have and messages bring of places and flags was made, or was there at the
/// start: of places and of flags together, where it holds of each.
fn what_is_carried_is_known()
    ensures { (servers : ℕ) → CarriedStandsOn servers }
{}

/// The laws of all runs, each with what it stands on.
fn laws_are_cited()
    ensures { (servers : ℕ) → AreCited servers }
{
    house_is_in_order();
    servers_are_whole();
    all_is_named();
    what_begins_is_new();
    views_are_prefixes();
    messages_are_of_views();
    removed_servers_rest();
    intentions_are_in_order();
    nothing_is_left_to_do();
    contents_are_states();
    states_are_heads();
    runs_make_histories();
    stamps_are_drawn_once();
    clocks_end_first();
    sources_announced();
    one_is_asked();
    kept_deltas_are_latest();
    bodies_answer_wants();
    wants_get_the_shortest_change();
    first_harbingers_ask();
    an_event_asks_one();
    runs_keep_edges();
    runs_grow();
    full_replicas_have_places();
    births_are_alone();
    births_are_known();
    edges_follow_births();
    asks_link_the_asker();
    gone_stays_gone();
    births_move_on();
    events_of_leaving();
    what_went_is_over();
    heard_edges_are_known();
    drops_leave_all();
    drops_are_safe();
    flags_are_own();
    golds_are_seen();
    golds_are_named();
    one_place_a_stamp();
    places_were_made();
    what_is_carried_is_known();
    names_are_what_was_taken();
    names_are_determined();
    returns_are_justified();
    returns_list_a_child();
    removals_stay();
    forgets_stay();
    ticks_send_what_is_owed();
    restarts_lose_wishes();
    refusals_change_nothing();
    listings_are_kept();
    confirms_begin_and_stay();
    quiet_stores_agree();
    quiet_servers_agree();
    quiet_names_form_a_tree();
    full_replicas_come();
    full_replicas_stay();
    golds_raise_none();
    kept_things_are_connected();
    kept_runs_are_repaired();
}

/// The laws of all runs: each stands on those before it.
pub fn laws_of_runs()
    ensures { (servers : ℕ) → LawsOfRuns servers }
{
    laws_are_cited();
    takes_are_what_came();
    replicas_took_what_came();
    rules_go_by_steps();
    confirms_begin_only();
    intentions_begin_in_turn();
    quiet_is_told();
}
