//! The answers to the Asks of a group.

ghost use Rattle.std.specs.Prelude.{◌≡◌, length, map, vec_capacity, OnOk, OnErr};
ghost use Rattle.inf_message.specs.Heard.{heard, light};
ghost use Rattle.inf_message.specs.Sent.{told_at};
ghost use Rattle.inf_message.specs.History.{told_reply};

use inf_base::{NoMemory, Place};
use inf_message::{Reply, Sending, Telling};
use std::alloc::Global;

/// Keeps the answer of one lookup, if its Ask stands at the place.
fn answer(
    alloc: Global,
    sending: &mut Sending,
    ask_place: Place,
    serve_place: Place,
    reply: &Reply,
) -> Result<(), NoMemory>
    ensures ok { OnOk result (sending.new ≡ told_at ask_place (told_reply serve_place (heard reply.now)) sending.old) }
    ensures err { OnErr result (sending.new ≡ sending.old) }
{
    if sending.is_at(ask_place) {
        sending.tell(Telling::new(serve_place, reply.heard(alloc)?));
    }
    Ok(())
}

/// Keeps the answer of the lookup whose Ask stands at this place.
#[tactic(auto, using(crate::proofs::RecordFacts::notes_none, crate::proofs::RecordFacts::notes_more, crate::proofs::RecordFacts::changed_all, crate::proofs::RecordFacts::changed_length))]
pub fn record_answer(
    alloc: Global,
    sent: &mut Vec<Sending>,
    ask_place: Place,
    serve_place: Place,
    reply: &Reply,
) -> Result<(), NoMemory>
    ensures told { OnOk result (sent.new.items
        ≡ map (told_at ask_place (told_reply serve_place (heard reply.now))) sent.old.items) }
    ensures err { OnErr result (length sent.new.items ≡ length sent.old.items) }
    ensures capacity { vec_capacity sent.new ≡ vec_capacity sent.old }
{
    for index in 0..sent.len() {
        answer(alloc, &mut sent[index], ask_place, serve_place, reply)?;
    }
    Ok(())
}

/// Keeps the answer of one Ask, if that stands at the place, as far as that takes no memory.
fn answer_light(sending: &mut Sending, ask_place: Place, serve_place: Place, reply: &Reply)
    ensures { sending.new ≡ told_at ask_place (told_reply serve_place (light reply.now)) sending.old }
{
    if sending.is_at(ask_place) {
        sending.tell(Telling::new(serve_place, reply.light()));
    }
}

/// Keeps the answer of the Ask at this place, as far as that takes no memory.
#[tactic(auto, using(crate::proofs::RecordFacts::notes_none, crate::proofs::RecordFacts::notes_more, crate::proofs::RecordFacts::changed_all, crate::proofs::RecordFacts::changed_length))]
pub fn record_light(sent: &mut Vec<Sending>, ask_place: Place, serve_place: Place, reply: &Reply)
    ensures told { sent.new.items
        ≡ map (told_at ask_place (told_reply serve_place (light reply.now))) sent.old.items }
    ensures capacity { vec_capacity sent.new ≡ vec_capacity sent.old }
{
    for index in 0..sent.len() {
        answer_light(&mut sent[index], ask_place, serve_place, reply);
    }
}
