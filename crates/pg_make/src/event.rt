//! Events that are drawn.

ghost use Rattle.std.specs.Prelude.{◌≡◌, ◌≤◌, IfOk};
ghost use Rattle.pg_make.specs.Event.{chosen, directory_path, file_path, next_bytes, next_rename, next_call, next_event};
ghost use Rattle.pg_sched.specs.Line.{IsLine};
ghost use Rattle.pg_sched.specs.Schedule.{IsCount};
ghost use Rattle.pg_sched.specs.declared.line.Line.{Line};

use crate::action::{Action, Request};
use crate::draw::below;
use pg_base::{Bytes, NodeId, SharedBytes};
use pg_call::{Call, Payload, ReadCount};
use pg_event::Event;
use rand_core::utils::NextWord;
use rand_pcg::Pcg32;
use std::alloc::{AllocError, Global};

/// How many directories there are paths for, and how many files in each.
const DIRECTORIES: u32 = 4;

const FILES: u32 = 8;

/// What is drawn for every event, whether it is used or not.
#[derive(Clone, Copy, Debug)]
pub(crate) struct Choice {
    action: Action,
    server: NodeId,
    directory: u32,
    file: u32,
}

impl Choice {
    /// The choice of the next four words, in a run of so many servers.
    fn next(words: &mut Pcg32, servers: u32) -> Choice
        requires { IsCount servers }
        ensures { (result, words.new) ≡ chosen servers words.old }
    {
        let action = Action::next(words);
        let server = 1 + below(words, servers);
        let directory = below(words, DIRECTORIES);
        let file = below(words, FILES);
        Choice {
            action,
            server,
            directory,
            file,
        }
    }
}

fn directory_path(alloc: Global, directory: u32) -> Result<SharedBytes, AllocError>
    ensures { IfOk result (λ p. p ≡ directory_path directory) }
{
    let mut path = Bytes::new(alloc);
    write!(path, "/d{directory}")?;
    SharedBytes::from_vec(alloc, path.into_vec())
}

fn file_path(alloc: Global, directory: u32, file: u32) -> Result<SharedBytes, AllocError>
    ensures { IfOk result (λ p. p ≡ file_path directory file) }
{
    let mut path = Bytes::new(alloc);
    write!(path, "/d{directory}/f{file}")?;
    SharedBytes::from_vec(alloc, path.into_vec())
}

/// The four bytes of the next word, the highest first.
fn next_bytes(alloc: Global, words: &mut Pcg32) -> Result<Payload, AllocError>
    ensures { IfOk result (λ p. (p, words.new) ≡ next_bytes words.old) }
{
    let bytes = words.next_word().to_be_bytes();
    match Payload::new(SharedBytes::from_slice(alloc, &bytes)?) {
        Some(payload) => Ok(payload),
        None => unreachable!(),
    }
}

/// A rename to a path of the next two words.
fn next_rename(alloc: Global, from: SharedBytes, words: &mut Pcg32) -> Result<Call, AllocError>
    ensures { IfOk result (λ c. (c, words.new) ≡ next_rename from words.old) }
{
    let directory = below(words, DIRECTORIES);
    let file = below(words, FILES);
    let to = file_path(alloc, directory, file)?;
    Ok(Call::Rename { from, to })
}

/// What is asked for, of the directory and file chosen.
fn next_call(
    alloc: Global,
    request: Request,
    directory: u32,
    file: u32,
    words: &mut Pcg32,
) -> Result<Call, AllocError>
    ensures { IfOk result (λ c. (c, words.new) ≡ next_call request directory file words.old) }
{
    let within = directory_path(alloc, directory)?;
    let path = file_path(alloc, directory, file)?;
    match request {
        Request::Mkdir => Ok(Call::Mkdir { path: within }),
        Request::Create(policy) => Ok(Call::Create { path, policy }),
        Request::Write => {
            let bytes = next_bytes(alloc, words)?;
            Ok(Call::Write {
                path,
                offset: 0,
                bytes,
            })
        }
        Request::Cut => {
            let length = below(words, 4096);
            Ok(Call::Cut { path, length })
        }
        Request::Rename => Ok(next_rename(alloc, path, words)?),
        Request::Unlink => Ok(Call::Unlink { path }),
        Request::Rmdir => Ok(Call::Rmdir { path: within }),
        Request::Read => Ok(Call::Read {
            path,
            offset: 0,
            count: ReadCount::new(16).unwrap(),
        }),
    }
}

/// The next event, as it is drawn.
fn draw_event(
    alloc: Global,
    servers: u32,
    moment: u64,
    words: &mut Pcg32,
) -> Result<Event, AllocError>
    requires { IsCount servers }
    ensures { IfOk result (λ e. (e, words.new) ≡ next_event servers moment words.old) }
{
    let Choice {
        action,
        server,
        directory,
        file,
    } = Choice::next(words, servers);
    match action {
        Action::Ask(request) => {
            let call = next_call(alloc, request, directory, file, words)?;
            Ok(Event::Call {
                server,
                moment,
                call,
            })
        }
        Action::Repeat => Ok(Event::Repeat(1)),
        Action::Lose => Ok(Event::Lose(1)),
        Action::Restart => Ok(Event::Restart(server)),
        Action::Tick => {
            let word = u64::from(words.next_word());
            Ok(Event::Tick {
                server,
                moment,
                word,
            })
        }
        Action::Deliver => {
            let number = 1 + u64::from(below(words, 4));
            Ok(Event::Deliver(number))
        }
    }
}

/// The next event, in a run of so many servers, at this moment.
pub fn next_event(
    alloc: Global,
    servers: u32,
    moment: u64,
    words: &mut Pcg32,
) -> Result<Event, AllocError>
    requires { IsCount servers }
    ensures event { IfOk result (λ e. (e, words.new) ≡ next_event servers moment words.old) }
    ensures line { IfOk result (λ e. IsLine (Line.Happens e)) }
{
    Ok(draw_event(alloc, servers, moment, words)?)
}
