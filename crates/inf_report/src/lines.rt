//! The lines of a report: each function appends one whole line.

ghost use Rattle.std.specs.Prelude.{◌≡◌, ◌++◌, OnOk};
ghost use Rattle.inf_report.specs.Report.{ask_text, call_line, called_text, client_line, count_line, counts_text, event_line, event_text, line, open_mark, place_text, serve_text, server_text, setup_lines, span_text};

use crate::calls::{push_answer, push_ref, push_word, push_words};
use crate::identifiers::push_behind;
use crate::numbers::{push_next_number, push_number};
use crate::replies::push_reply;
use crate::requests::push_request;
use inf_base::{ClientLine, NoMemory, Place, Setup};
use inf_message::{Ask, CallResult, Event, Reply};

/// A line of one word.
pub fn push_line(out: &mut Vec<u8>, word: &[u8]) -> Result<(), NoMemory>
    ensures { OnOk result (out.new.items ≡ out.old.items ++ line word.now) }
{
    push_behind(out, word, b"\n")
}

/// A line of a word and a number.
pub fn push_count_line(out: &mut Vec<u8>, word: &[u8], count: u64) -> Result<(), NoMemory>
    ensures { OnOk result (out.new.items ≡ out.old.items ++ count_line word.now count) }
{
    push_word(out, word)?;
    push_next_number(out, count)?;
    push_word(out, b"\n")
}

/// The version, and the numbers that the run was set up with.
pub fn push_setup_lines(out: &mut Vec<u8>, setup: &Setup) -> Result<(), NoMemory>
    ensures { OnOk result (out.new.items ≡ out.old.items ++ setup_lines setup.now) }
{
    push_line(out, b"infinifs report 1")?;
    push_count_line(out, b"servers", u64::from(setup.servers))?;
    push_count_line(out, b"digest-bytes", u64::from(setup.digest_bytes))?;
    push_count_line(out, b"cache", u64::from(setup.cache))?;
    Ok(())
}

pub fn push_client_line(out: &mut Vec<u8>, client: &ClientLine) -> Result<(), NoMemory>
    ensures { OnOk result (out.new.items ≡ out.old.items ++ client_line client.now) }
{
    push_behind(out, b"client ", client.name.as_slice())?;
    push_next_number(out, u64::from(client.caller.uid))?;
    push_next_number(out, u64::from(client.caller.gid))?;
    push_word(out, b"\n")
}

fn push_place(out: &mut Vec<u8>, place: Option<Place>) -> Result<(), NoMemory>
    ensures { OnOk result (out.new.items ≡ out.old.items ++ place_text place) }
{
    match place {
        Some(place) => push_number(out, place),
        None => push_word(out, b"-"),
    }
}

fn push_span(out: &mut Vec<u8>, call: &CallResult) -> Result<(), NoMemory>
    ensures { OnOk result (out.new.items ≡ out.old.items ++ span_text call.now) }
{
    push_word(out, b" first ")?;
    push_place(out, call.first)?;
    push_word(out, b" last ")?;
    push_place(out, call.last)
}

fn push_counts(out: &mut Vec<u8>, call: &CallResult) -> Result<(), NoMemory>
    ensures { OnOk result (out.new.items ≡ out.old.items ++ counts_text call.now) }
{
    push_word(out, b" attempts")?;
    push_next_number(out, call.attempts)?;
    push_word(out, b" rounds")?;
    push_next_number(out, call.rounds)?;
    push_word(out, b" messages")?;
    push_next_number(out, call.messages)
}

fn push_open_mark(
    out: &mut Vec<u8>,
    place: Option<Place>,
    last: Option<Place>,
) -> Result<(), NoMemory>
    ensures { OnOk result (out.new.items ≡ out.old.items ++ open_mark place last) }
{
    match (place, last) {
        (Some(_), None) => push_word(out, b" open"),
        (Some(_), Some(_)) => Ok(()),
        (None, _) => Ok(()),
    }
}

/// The place of a call, which call it is, and its words.
fn push_called(out: &mut Vec<u8>, clients: &[ClientLine], call: &CallResult) -> Result<(), NoMemory>
    ensures { OnOk result (out.new.items ≡ out.old.items ++ called_text clients.now call.now) }
{
    push_place(out, call.place)?;
    push_word(out, b" ")?;
    push_ref(out, clients, call.call)?;
    push_word(out, b" ")?;
    push_words(out, clients, call.call)
}

pub fn push_call_line(
    out: &mut Vec<u8>,
    clients: &[ClientLine],
    call: &CallResult,
) -> Result<(), NoMemory>
    ensures { OnOk result (out.new.items ≡ out.old.items ++ call_line clients.now call.now) }
{
    push_called(out, clients, call)?;
    push_word(out, b" = ")?;
    push_answer(out, clients, &call.answer)?;
    push_span(out, call)?;
    push_counts(out, call)?;
    push_open_mark(out, call.place, call.last)?;
    push_word(out, b"\n")?;
    Ok(())
}

/// The name of a server, or of the coordinator.
fn push_server(out: &mut Vec<u8>, servers: u32, number: u32) -> Result<(), NoMemory>
    ensures { OnOk result (out.new.items ≡ out.old.items ++ server_text servers number) }
{
    if number == servers {
        return push_word(out, b"c");
    }
    push_word(out, b"s")?;
    push_number(out, u64::from(number))
}

fn push_ask(out: &mut Vec<u8>, setup: &Setup, number: u32, ask: &Ask) -> Result<(), NoMemory>
    ensures { OnOk result (out.new.items ≡ out.old.items ++ ask_text setup.now number ask.now) }
{
    push_word(out, b" ask ")?;
    push_ref(out, setup.clients.as_slice(), ask.from)?;
    push_word(out, b" ")?;
    push_server(out, setup.servers, number)?;
    push_word(out, b" ")?;
    push_request(out, &ask.request)
}

fn push_serve(
    out: &mut Vec<u8>,
    setup: &Setup,
    number: u32,
    ask_place: Place,
    reply: &Reply,
) -> Result<(), NoMemory>
    ensures { OnOk result
        (out.new.items ≡ out.old.items ++ serve_text setup.now number ask_place reply.now) }
{
    push_word(out, b" serve ")?;
    push_server(out, setup.servers, number)?;
    push_next_number(out, ask_place)?;
    push_word(out, b" ")?;
    push_reply(out, setup.clients.as_slice(), reply)
}

fn push_event(out: &mut Vec<u8>, setup: &Setup, event: &Event) -> Result<(), NoMemory>
    ensures { OnOk result (out.new.items ≡ out.old.items ++ event_text setup.now event.now) }
{
    match event {
        Event::Ask { number, ask } => push_ask(out, setup, *number, ask),
        Event::Serve {
            number,
            ask_place,
            reply,
        } => push_serve(out, setup, *number, *ask_place, reply),
    }
}

pub fn push_event_line(
    out: &mut Vec<u8>,
    setup: &Setup,
    place: Place,
    event: &Event,
) -> Result<(), NoMemory>
    ensures { OnOk result (out.new.items ≡ out.old.items ++ event_line setup.now place event.now) }
{
    push_number(out, place)?;
    push_event(out, setup, event)?;
    push_word(out, b"\n")
}
