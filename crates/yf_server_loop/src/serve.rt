//! The loop of a server.
ghost use Rattle.yf_server_loop.specs.Sessions.{SessionRuns, Turns, moment_of};

use crate::ended::Ended;
use crate::handle::handle;
use crate::receive::receive;
use crate::send::send;
use std::alloc::Global;
use yf_lines::watched::{Sink, Source};
use yf_server::analysis::Analysis;
use yf_server::step::Server;

/// Reads one message and handles it. Returns how the session ends, if it does.
fn turn<A: Analysis, R: Source, W: Sink>(
    alloc: Global,
    analysis: &A,
    server: &mut Server,
    inbox: &mut Vec<u8>,
    reader: &mut R,
    writer: &mut W,
) -> Option<Ended>
    ensures { Turns (A.claim analysis.now)
        (moment_of R.remaining R.has_failed W.contents W.has_failed reader.old writer.old)
        (moment_of R.remaining R.has_failed W.contents W.has_failed reader.new writer.new)
        server.old inbox.old.items server.new inbox.new.items result }
{
    let content = match receive(reader, inbox) {
        Ok(content) => content,
        Err(ended) => return Some(ended),
    };
    let handled = match handle(alloc, analysis, server, inbox, content) {
        Ok(handled) => handled,
        Err(_) => return Some(Ended::Memory),
    };
    match send(writer, handled.answer.as_slice()) {
        Ok(()) => match handled.exit {
            None => None,
            Some(is_success) => Some(Ended::Exit { is_success }),
        },
        Err(_) => Some(Ended::WriteFailed),
    }
}

/// Serves a client: reads its messages, handles each, and writes each response before it reads on. Returns how the
/// session ended.
pub fn serve<A: Analysis, R: Source, W: Sink>(
    alloc: Global,
    analysis: &A,
    reader: &mut R,
    writer: &mut W,
) -> Ended
    ensures { SessionRuns (A.claim analysis.now)
        (moment_of R.remaining R.has_failed W.contents W.has_failed reader.old writer.old)
        (moment_of R.remaining R.has_failed W.contents W.has_failed reader.new writer.new) result }
{
    let mut server = Server::new(alloc);
    let mut inbox = Vec::new(alloc);
    for _count in 0..u64::MAX {
        match turn(alloc, analysis, &mut server, &mut inbox, reader, writer) {
            None => {}
            Some(ended) => return ended,
        }
    }
    Ended::TooMany
}
