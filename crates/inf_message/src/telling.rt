//! How an Ask was answered.

ghost use Rattle.std.specs.Prelude.{◌≡◌};

use crate::reply::Reply;
use inf_base::Place;
use std::marker::Model;

/// The reply to an Ask, and the place of its Serve.
#[derive(Drop)]
pub struct Telling {
    serve_place: Place,
    reply: Reply,
}

impl Model for Telling {
    ghost use Rattle.inf_message.specs.History.{Told};

    ghost Value = { Told };

    ghost view = { λ t. record { serve_place = t.serve_place; reply = t.reply } };
}

impl Telling {
    pub fn new(serve_place: Place, reply: Reply) -> Self
        ensures { result ≡ record { serve_place = serve_place; reply = reply } }
    {
        Telling { serve_place, reply }
    }

    pub fn serve_place(&self) -> Place
        ensures { result ≡ self.now.serve_place }
    {
        self.serve_place
    }

    pub fn reply(&self) -> &Reply
        ensures { result.now ≡ self.now.reply }
    {
        &self.reply
    }

    pub fn into_parts(self) -> (Place, Reply)
        ensures place { result.0 ≡ self.serve_place }
        ensures reply { result.1 ≡ self.reply }
    {
        let Telling { serve_place, reply } = self;
        (serve_place, reply)
    }
}
