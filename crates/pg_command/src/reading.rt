//! The values of words that were looked at, as clap reads them.

ghost use Rattle.std.specs.Prelude.{◌≡◌, ◌∷◌, ◌⊎◌, [], IfOk, Some, true, codes, decimal, is_some, map, option_map};
ghost use Rattle.std.specs.String.{string_bytes};
ghost use Rattle.clap.specs.Words as clap_words;
ghost use Rattle.pg_command.specs.Program.{program_app};
ghost use Rattle.pg_command.specs.Words as wording;
ghost use Rattle.pg_command.specs.declared.command.Command.TheVariants.{Replay};

use crate::command::Numbers;
use crate::node::NodeWords;
use crate::program::program;
use clap::ArgMatches;
use clap::error::ErrorKind;
use pg_base::NodeId;
use std::alloc::{AllocError, Global};

/// What clap makes of the words behind the program's name. It refuses none of them.
fn matches_of<'a>(alloc: Global, words: &'a [String]) -> Result<ArgMatches<'a>, AllocError>
    requires { clap_words.takes program_app (map (λ w. string_bytes w) words.now) ≡ true }
    ensures { IfOk result (λ m. clap_words.subcommand_rows_of m
        ≡ clap_words.subcommand_of program_app (map (λ w. string_bytes w) words.now)) }
{
    match program(alloc)?.try_get_matches_from(words) {
        Ok(matches) => Ok(matches),
        Err(error) => match error.kind() {
            ErrorKind::OutOfMemory => Err(AllocError),
            _ => unreachable!(),
        },
    }
}

/// What clap found of the command that these words name.
fn found_in<'a>(alloc: Global, words: &'a [String]) -> Result<ArgMatches<'a>, AllocError>
    requires taken { clap_words.takes program_app (map (λ w. string_bytes w) words.now) ≡ true }
    requires named { is_some
        (clap_words.subcommand_of program_app (map (λ w. string_bytes w) words.now)) ≡ true }
    ensures { IfOk result (λ m. option_map (λ p. p.1)
        (clap_words.subcommand_of program_app (map (λ w. string_bytes w) words.now))
        ≡ Some (clap_words.rows_of (clap_words.found_of m))) }
{
    let mut matches = matches_of(alloc, words)?;
    match matches.remove_subcommand() {
        Some((_, found)) => Ok(found),
        None => unreachable!(),
    }
}

/// The number that clap read of a word, which is that of the look before.
fn number_at(found: &ArgMatches<'_>, name: &str, checked: u64) -> u64
    requires { clap_words.one_of name.now (clap_words.rows_of (clap_words.found_of found.now))
        ≡ Some (decimal checked) }
    ensures { result ≡ checked }
{
    match found.get_one::<u64>(name) {
        Some(n) => n,
        None => unreachable!(),
    }
}

/// The text that clap read of a word, which is that of the look before.
fn text_at<'a>(found: &ArgMatches<'a>, name: &str, checked: &[u8]) -> &'a str
    requires { clap_words.first_of name.now (clap_words.rows_of (clap_words.found_of found.now))
        ≡ Some checked.now }
    ensures { result.now ≡ checked.now }
{
    match found.get_str(name) {
        Some(text) => text,
        None => unreachable!(),
    }
}

/// The numbers of a schedule that is made, as clap reads them.
pub(crate) fn numbers_read(
    alloc: Global,
    words: &[String],
    checked: Numbers,
) -> Result<Numbers, AllocError>
    requires fits { wording.AreNumbers checked }
    requires spelled { (map (λ w. string_bytes w) words.now
        ≡ codes "make" ∷ wording.number_words checked)
        ⊎ (map (λ w. string_bytes w) words.now
        ≡ codes "soak" ∷ wording.number_words checked) }
    ensures { IfOk result (λ numbers. numbers ≡ checked) }
{
    let found = found_in(alloc, words)?;
    let seed = number_at(&found, "SEED", checked.seed);
    let servers = number_at(&found, "SERVERS", u64::from(checked.servers));
    let events = number_at(&found, "EVENTS", checked.events);
    Ok(Numbers {
        seed,
        servers: servers as u32,
        events,
    })
}

/// What the words of a node say, as clap reads them.
pub(crate) fn node_read<'a>(
    alloc: Global,
    words: &'a [String],
    checked: NodeWords<'a>,
) -> Result<NodeWords<'a>, AllocError>
    requires fits { wording.IsNode checked.server checked.servers checked.port
        checked.name.now checked.turns }
    requires spelled { map (λ w. string_bytes w) words.now
        ≡ codes "node" ∷ wording.node_words checked.server checked.servers checked.port
        checked.name.now checked.turns }
    ensures server { IfOk result (λ n. n.server ≡ checked.entry.server) }
    ensures servers { IfOk result (λ n. n.servers ≡ checked.entry.servers) }
    ensures port { IfOk result (λ n. n.port ≡ checked.entry.port) }
    ensures name { IfOk result (λ n. n.name.now ≡ checked.entry.name.now) }
    ensures turns { IfOk result (λ n. n.turns ≡ checked.entry.turns) }
{
    let found = found_in(alloc, words)?;
    let server = number_at(&found, "SERVER", u64::from(checked.server));
    let servers = number_at(&found, "SERVERS", u64::from(checked.servers));
    let port = number_at(&found, "PORT", u64::from(checked.port));
    let name = text_at(&found, "NAME", checked.name);
    let turns = number_at(&found, "TURNS", checked.turns);
    Ok(NodeWords {
        server: server as u32,
        servers: servers as u32,
        port: port as u16,
        name: name.as_bytes(),
        turns,
    })
}

/// Of which server a call asks, and at which port, as clap reads them. The call's own words are not
/// among these.
pub(crate) fn target_read(
    alloc: Global,
    words: &[String],
    server: NodeId,
    port: u16,
) -> Result<(NodeId, u16), AllocError>
    requires { map (λ w. string_bytes w) words.now
        ≡ codes "call" ∷ decimal server ∷ decimal port ∷ [] }
    ensures server { IfOk result (λ r. r.0 ≡ server) }
    ensures port { IfOk result (λ r. r.1 ≡ port) }
{
    let found = found_in(alloc, words)?;
    let from = number_at(&found, "SERVER", u64::from(server));
    let at = number_at(&found, "PORT", u64::from(port));
    Ok((from as u32, at as u16))
}

/// Whether a replay has meters, as clap reads it.
pub(crate) fn metered_read(
    alloc: Global,
    words: &[String],
    checked: bool,
) -> Result<bool, AllocError>
    requires { map (λ w. string_bytes w) words.now ≡ wording.command_words (Replay checked) }
    ensures { IfOk result (λ metered. metered ≡ checked) }
{
    let found = found_in(alloc, words)?;
    Ok(found.get_flag("meters"))
}
