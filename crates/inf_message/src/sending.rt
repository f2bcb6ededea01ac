//! The Asks of the group that is under way.

ghost use Rattle.std.specs.Prelude.{◌≡◌, ◌==◌, ◌∷◌, [], vec_capacity, MatchOption};
ghost use Rattle.std.specs.List.{list_all};
ghost use Rattle.std.specs.Option.{option_copied};
ghost use Rattle.inf_message.specs.Sent.{deciding, has_place, is_fine, is_told, is_wanting, new_sent, told_more, wants_memory};

use crate::reply::Reply;
use crate::telling::Telling;
use inf_base::Place;
use std::marker::Model;

/// An Ask of the group that is under way: its place, and its answer, if it was served.
#[derive(Drop)]
pub struct Sending {
    place: Place,
    told: Option<Telling>,
}

impl Model for Sending {
    ghost use Rattle.inf_message.specs.Sent.{Sent};

    ghost Value = { Sent };

    ghost view = { λ s. record { place = s.place; told = s.told } };
}

impl Sending {
    pub fn new(place: Place) -> Self
        ensures { result ≡ new_sent place }
    {
        Sending { place, told: None }
    }

    pub fn place(&self) -> Place
        ensures { result ≡ self.now.place }
    {
        self.place
    }

    pub fn is_at(&self, place: Place) -> bool
        ensures { result ≡ (self.now.place == place) }
    {
        self.place == place
    }

    pub fn is_told(&self) -> bool
        ensures { result ≡ is_told self.now }
    {
        self.told.is_some()
    }

    fn wants_memory(&self) -> bool
        ensures { result ≡ wants_memory self.now.told }
    {
        match &self.told {
            Some(told) => matches!(told.reply(), Reply::NoMem),
            None => false,
        }
    }

    /// Whether it has succeeded, as a message does that is sent with others.
    fn is_fine(&self) -> bool
        ensures { result ≡ is_fine self.now.told }
    {
        match &self.told {
            Some(told) => matches!(told.reply(), Reply::Fine),
            None => false,
        }
    }

    /// The first answer is the one that counts.
    pub fn tell(&mut self, told: Telling)
        ensures { self.new ≡ told_more told self.old }
    {
        if self.told.is_none() {
            self.told = Some(told);
        }
    }

    pub fn told(&self) -> Option<&Telling>
        ensures { option_copied result ≡ self.now.told }
    {
        self.told.as_ref()
    }

    pub fn into_told(self) -> Option<Telling>
        ensures { result ≡ self.told }
    {
        let Sending { place: _, told } = self;
        told
    }
}

/// Whether one of them stands at this place.
pub fn has_place(sent: &[Sending], place: Place) -> bool
    ensures { result ≡ has_place place sent.now }
{
    sent.iter().any(|sending| sending.is_at(place))
}

/// Whether each of them was answered.
pub fn are_told(sent: &[Sending]) -> bool
    ensures { result ≡ list_all is_told sent.now }
{
    sent.iter().all(|sending| sending.is_told())
}

/// Whether one of them was told that memory is wanting.
pub fn is_one_wanting(sent: &[Sending]) -> bool
    ensures { result ≡ is_wanting sent.now }
{
    sent.iter().any(|sending| sending.wants_memory())
}

/// The one that decides its group: the first, in the order of asking, that did not succeed; or the last.
pub fn deciding(sent: &[Sending]) -> Option<&Sending>
    ensures { option_copied result ≡ deciding sent.now }
{
    let (first, rest) = sent.split_first()?;
    let mut decides = first;
    for next in rest {
        if !decides.is_fine() {
            return Some(decides);
        }
        decides = next;
    }
    Some(decides)
}

/// Takes the first of them. A group has few, so that the others may move up.
pub fn take_first(sent: &mut Vec<Sending>) -> Option<Sending>
    ensures items { MatchOption result (sent.old.items ≡ []) (λ first. sent.old.items ≡ first ∷ sent.new.items) }
    ensures capacity { vec_capacity sent.new ≡ vec_capacity sent.old }
{
    if sent.is_empty() {
        return None;
    }
    Some(sent.remove(0))
}
