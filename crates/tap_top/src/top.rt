//! The top call.

ghost use Rattle.std.specs.Prelude.{◌≡◌, ℕ, true, List, Some, map, string_bytes, IfOk};
ghost use Rattle.tap_top.specs.Course.{Course, IsSent};
ghost use Rattle.tap_top.specs.Top.{Ended, IsReply, is_built, reads, served, sink_between, source_between};

use crate::ends::{ReadError, read_all, write_all};
use crate::refusal::refusal_line;
use crate::serving::{made, serve};
use crate::words::served;
use scen_laid::read_is_laid;
use scen_plain::{plain_runs_are_sound, plain_traces};
use scen_text::{OrMemory, read_scenario};
use std::alloc::{AllocError, Global};
use tap_outside::{Sink, SinkErr, Source};
use tap_words::Request;

/// The statuses.
const DONE: u8 = 0;

const USAGE_TOLD: u8 = 1;

const REFUSED: u8 = 2;

const SOURCE_FAILED: u8 = 3;

const SINK_FAILED: u8 = 4;

const OUT_OF_MEMORY: u8 = 5;

const USAGE: &str =
    "usage: tapsim check | plain [--seed N] [--json] | live [--json] | audit | gen N | upgrade\n";

// What is to be written, and the status that goes with it.
#[derive(Drop)]
struct Reply {
    status: u8,
    text: String,
}

// The reply to an input, for what is asked.
fn reply_to(alloc: Global, request: Request, bytes: &[u8]) -> Result<Reply, AllocError>
    requires built { is_built request ≡ true }
    requires read { reads request ≡ true }
    ensures { IfOk result (λ reply. IsReply request bytes.now reply.status (string_bytes reply.text)) }
{
    read_is_laid();
    plain_runs_are_sound();
    plain_traces();
    match read_scenario(alloc, bytes) {
        Ok(scenario) => Ok(Reply {
            status: DONE,
            text: serve(alloc, request, scenario)?,
        }),
        Err(OrMemory::Fault(fault)) => Ok(Reply {
            status: REFUSED,
            text: refusal_line(alloc, fault)?,
        }),
        Err(OrMemory::NoMemory) => Err(AllocError),
    }
}

// Writes the text that goes with a status, and answers the status of the whole.
fn send<K: Sink>(sink: &mut K, text: &str, status: u8) -> u8
    ensures { IsSent
        (sink_between (K.written sink.old) (K.written sink.new) (K.faults sink.old) (K.faults sink.new))
        (K.is_reliable sink.old) status text.now result }
{
    match write_all(sink, text.as_bytes()) {
        Ok(()) => status,
        Err(SinkErr::Failed) if status == DONE => SINK_FAILED,
        Err(SinkErr::Failed) => status,
        Err(SinkErr::NoMemory) => OUT_OF_MEMORY,
    }
}

// Reads the input, and writes the reply to it.
fn replied<S: Source, K: Sink>(alloc: Global, request: Request, source: &mut S, sink: &mut K) -> u8
    requires built { is_built request ≡ true }
    requires read { reads request ≡ true }
    ensures { (words : List (List ℕ)) → served words ≡ Some request → Course words
        (source_between (S.left source.old) (S.left source.new) (S.faults source.old) (S.faults source.new))
        (sink_between (K.written sink.old) (K.written sink.new) (K.faults sink.old) (K.faults sink.new))
        (source.new ≡ source.old) (sink.new ≡ sink.old) (S.ends_well source.old) (K.is_reliable sink.old) result }
{
    let bytes = match read_all(alloc, source) {
        Ok(bytes) => bytes,
        Err(ReadError::SourceFailed) => return SOURCE_FAILED,
        Err(ReadError::NoMemory) => return OUT_OF_MEMORY,
    };
    match reply_to(alloc, request, &bytes) {
        Ok(reply) => send(sink, reply.text.as_str(), reply.status),
        Err(AllocError) => OUT_OF_MEMORY,
    }
}

fn course<S: Source, K: Sink>(alloc: Global, words: &[String], source: &mut S, sink: &mut K) -> u8
    ensures { Course (map string_bytes words.now)
        (source_between (S.left source.old) (S.left source.new) (S.faults source.old) (S.faults source.new))
        (sink_between (K.written sink.old) (K.written sink.new) (K.faults sink.old) (K.faults sink.new))
        (source.new ≡ source.old) (sink.new ≡ sink.old) (S.ends_well source.old) (K.is_reliable sink.old) result }
{
    let request = match served(alloc, words) {
        Ok(Some(request)) => request,
        Ok(None) => return send(sink, USAGE, USAGE_TOLD),
        Err(AllocError) => return OUT_OF_MEMORY,
    };
    match request {
        Request::Gen { count } => match made(alloc, count) {
            Ok(text) => send(sink, text.as_str(), DONE),
            Err(AllocError) => OUT_OF_MEMORY,
        },
        request => replied(alloc, request, source, sink),
    }
}

/// Runs the program: the words are those after its name, the scenario comes from the source, which `gen` doesn't read,
/// and all that is written goes to the sink. It answers the exit status:
///
/// | status | where | written |
/// |---|---|---|
/// | 0 | done | what is asked for |
/// | 1 | the words aren't `check`, `plain [--seed N] [--json]`, `gen N` or `upgrade` | the usage line |
/// | 2 | the scenario is refused | `refused LINE WHY` |
/// | 3 | the source failed | nothing |
/// | 4 | the sink failed | a front of the text of status 0, and not all of it |
/// | 5 | memory ran out | nothing, or a front of the text or line that would else be written, and not all of it |
///
/// What is asked for is of `check` the line `ok N`, N the number of commands; of `plain` the trace, then the report, as
/// text or as one line of JSON; of `gen` and `upgrade` a scenario.
///
/// The order is words, reading, scenario, running, writing; status 5 may come in place of any. Where the line of
/// status 1 or 2 can't be written whole, the status stays and a front of it is written. Bytes are spoken of where
/// source and sink tell theirs.
pub fn plain_main<S: Source, K: Sink>(
    alloc: Global,
    words: &[String],
    source: &mut S,
    sink: &mut K,
) -> u8
    ensures { Ended (map string_bytes words.now)
        (source_between (S.left source.old) (S.left source.new) (S.faults source.old) (S.faults source.new))
        (sink_between (K.written sink.old) (K.written sink.new) (K.faults sink.old) (K.faults sink.new))
        (source.new ≡ source.old) (sink.new ≡ sink.old) (S.ends_well source.old) (K.is_reliable sink.old) result }
{
    course(alloc, words, source, sink)
}
