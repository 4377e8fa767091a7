//! The program's commands as clap has them, and the help that it makes of them.

ghost use Rattle.std.specs.Prelude.{◌≡◌, IfOk, false, codes};
ghost use Rattle.clap.specs.Words as clap_words;
ghost use Rattle.pg_command.specs.Program as apps;

use crate::command::Help;
use crate::verb::Verb;
use clap::{Arg, ArgAction, Command};
use std::alloc::{AllocError, Global};

/// A word that has to be there.
fn value<'a>(alloc: Global, name: &'a str, help: &'a str) -> Arg<'a>
    ensures rule { clap_words.rule_of result ≡ apps.value_rule name.now }
    ensures local { result.global ≡ false }
{
    Arg::new(alloc, name).help(help).required(true)
}

fn replay<'a>(alloc: Global) -> Result<Command<'a>, AllocError>
    ensures { IfOk result (λ c. clap_words.app_of c ≡ apps.replay_app) }
{
    let meters = Arg::new(alloc, "meters")
        .long("meters")
        .help("Shows each event to the meters")
        .action(ArgAction::SetTrue);
    Command::new(alloc, "replay")
        .about("Reads a schedule from standard input and writes the journal of its run")
        .arg(meters)
}

/// A command on a schedule that is made of three numbers.
fn numbers<'a>(alloc: Global, name: &'a str, about: &'a str) -> Result<Command<'a>, AllocError>
    ensures { IfOk result (λ c. clap_words.app_of c ≡ apps.numbers_app name.now) }
{
    Command::new(alloc, name)
        .about(about)
        .arg(value(alloc, "SEED", "A number"))?
        .arg(value(alloc, "SERVERS", "How many servers: a number from 1 to 64"))?
        .arg(value(alloc, "EVENTS", "How many events: a number up to 1000000"))
}

fn make<'a>(alloc: Global) -> Result<Command<'a>, AllocError>
    ensures { IfOk result (λ c. clap_words.app_of c ≡ apps.numbers_app (codes "make")) }
{
    numbers(
        alloc,
        "make",
        "Writes the schedule that is made of these numbers",
    )
}

fn soak<'a>(alloc: Global) -> Result<Command<'a>, AllocError>
    ensures { IfOk result (λ c. clap_words.app_of c ≡ apps.numbers_app (codes "soak")) }
{
    numbers(
        alloc,
        "soak",
        "Runs that schedule and writes what came of it",
    )
}

const PORT: &str = "A number from 1 to 65471: each server is at PORT and its number";

fn node<'a>(alloc: Global) -> Result<Command<'a>, AllocError>
    ensures { IfOk result (λ c. clap_words.app_of c ≡ apps.node_app) }
{
    Command::new(alloc, "node")
        .about("Runs one server, which keeps its log in the file NAME.log")
        .arg(value(alloc, "SERVER", "Which server: a number from 1 to SERVERS"))?
        .arg(value(alloc, "SERVERS", "How many servers: a number from 1 to 64"))?
        .arg(value(alloc, "PORT", PORT))?
        .arg(value(
            alloc,
            "NAME",
            "1 to 64 bytes, each a lower case letter or a digit",
        ))?
        .arg(value(
            alloc,
            "TURNS",
            "How many packets, and seconds without one, until it ends",
        ))
}

const ASKED: &str = "ASKED is one of mkdir, create, write, cut, read, fresh, ls, stat, rename, \
                     unlink, rmdir, forget, demote, drop, giveup, status, tick and stop, with the \
                     words that a schedule's call has behind it: a path has at most 5000 bytes, \
                     and bytes are pairs of lower case hexadecimal digits, or - for none.";

fn call<'a>(alloc: Global) -> Result<Command<'a>, AllocError>
    ensures { IfOk result (λ c. clap_words.app_of c ≡ apps.call_app) }
{
    Command::new(alloc, "call")
        .about("Asks a server for one thing and writes what it answers")
        .override_usage("pangaea call <SERVER> <PORT> <ASKED>..")
        .after_help(ASKED)
        .arg(value(alloc, "SERVER", "Which server: a number from 1 to 64"))?
        .arg(value(alloc, "PORT", PORT))
}

/// The command of this verb.
fn command<'a>(alloc: Global, verb: Verb) -> Result<Command<'a>, AllocError> {
    match verb {
        Verb::Replay => replay(alloc),
        Verb::Make => make(alloc),
        Verb::Soak => soak(alloc),
        Verb::Node => node(alloc),
        Verb::Call => call(alloc),
    }
}

/// The program with all its commands.
pub(crate) fn program<'a>(alloc: Global) -> Result<Command<'a>, AllocError>
    ensures { IfOk result (λ c. clap_words.app_of c ≡ apps.program_app) }
{
    Command::new(alloc, "pangaea")
        .about("Pangaea, a wide-area file system: its runs, its nodes, and calls to them")
        .no_binary_name(true)
        .disable_help_subcommand(true)
        .subcommand_required(true)
        .subcommand(replay(alloc)?)?
        .subcommand(make(alloc)?)?
        .subcommand(soak(alloc)?)?
        .subcommand(node(alloc)?)?
        .subcommand(call(alloc)?)
}

/// What help is asked of, under the name by which it is called.
fn subject(alloc: Global, of: Option<Verb>) -> Result<Command<'static>, AllocError> {
    let Some(verb) = of else {
        return program(alloc);
    };
    let name = match verb {
        Verb::Replay => "pangaea replay",
        Verb::Make => "pangaea make",
        Verb::Soak => "pangaea soak",
        Verb::Node => "pangaea node",
        Verb::Call => "pangaea call",
    };
    command(alloc, verb)?.bin_name(name)
}

/// The help that is asked for, as clap writes it.
pub fn help_of(alloc: Global, help: Help) -> Result<String, AllocError> {
    let mut subject = subject(alloc, help.of)?;
    if help.long {
        subject.render_long_help()
    } else {
        subject.render_help()
    }
}
