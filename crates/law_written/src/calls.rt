//! Calls that can be read.

ghost use Rattle.pg_packet_fields.specs.Values.{IsShortText};
ghost use Rattle.pg_packet_read.specs.Calls.{IsWholeCall, IsWholeRequest};
ghost use Rattle.pg_packet_read.specs.Targets.{IsWholeTarget};
ghost use Rattle.pg_packet_write.specs.Calls.{FitsCall, FitsTarget, FitsText};
ghost use Rattle.pg_packet_write.specs.Datagrams.{FitsRequest};

use crate::fields::{bytes_are, file_is, narrow_is, wide_is};
use pg_base::SharedBytes;
use pg_call::{Call, Target};
use pg_packet_write::Request;

pub fn text_is_whole(text: &SharedBytes)
    requires { FitsText text.now }
    ensures { IsShortText text.now }
{
    bytes_are(text.as_slice())
}

fn target_is_whole(target: &Target)
    requires { FitsTarget target.now }
    ensures { IsWholeTarget target.now }
{
    match target {
        Target::Path(path) => text_is_whole(path),
        Target::Id(id) => file_is(*id),
    }
}

fn call_is_whole(call: &Call)
    requires { FitsCall call.now }
    ensures { IsWholeCall call.now }
{
    match call {
        Call::Mkdir { path } => text_is_whole(path),
        Call::Create { path, .. } => text_is_whole(path),
        Call::Write {
            path,
            offset,
            bytes,
        } => {
            text_is_whole(path);
            narrow_is(*offset);
            bytes_are(bytes.bytes().as_slice())
        }
        Call::Cut { path, length } => {
            text_is_whole(path);
            narrow_is(*length)
        }
        Call::Read {
            path,
            offset,
            count,
        } => {
            text_is_whole(path);
            narrow_is(*offset);
            let _count = count.get();
        }
        Call::Fresh { path } => text_is_whole(path),
        Call::Ls { path, from } => {
            text_is_whole(path);
            narrow_is(*from)
        }
        Call::Stat { target } => target_is_whole(target),
        Call::Rename { from, to } => {
            text_is_whole(from);
            text_is_whole(to)
        }
        Call::Unlink { path } => text_is_whole(path),
        Call::Rmdir { path } => text_is_whole(path),
        Call::Forget { id } => file_is(*id),
        Call::Demote { target } => target_is_whole(target),
        Call::Drop { target } => target_is_whole(target),
        Call::Giveup { view, server } => {
            wide_is(*view);
            narrow_is(*server)
        }
        Call::Status => (),
        Call::Stop => (),
    }
}

pub fn request_is_whole(asked: &Request)
    requires { FitsRequest asked.now }
    ensures { IsWholeRequest asked.now }
{
    match asked {
        Request::Call(call) => call_is_whole(call),
        Request::Tick => (),
    }
}
