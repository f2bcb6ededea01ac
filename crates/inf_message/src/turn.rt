//! What comes of the answers to a group.

ghost use Rattle.std.specs.Prelude.{◌≡◌};
ghost use Rattle.inf_message.specs.Turn.{again, done, ends, fails};

use crate::clean_up::CleanUps;
use crate::ending::Ending;
use crate::reply::Reply;
use inf_base::{Answer, Place};

/// What comes of the answers to a group.
#[derive(Drop)]
pub enum Turn<F> {
    /// The flow goes on, with its next group.
    GoesOn(F),
    /// These messages, and then the end of the call or of the attempt.
    WindsUp(Ending, CleanUps),
}

/// The answer that the Serve at a place decided, with nothing to clean up.
pub fn ends<F>(answer: Answer, place: Place) -> Turn<F>
    ensures { result ≡ ends answer place }
{
    Turn::WindsUp(Ending::Answers(answer, Some(place)), CleanUps::none())
}

/// A new attempt follows.
pub fn again<F>() -> Turn<F>
    ensures { result ≡ again }
{
    Turn::WindsUp(Ending::Retries, CleanUps::none())
}

/// The call was done, and these messages follow.
pub fn done<F>(place: Place, more: CleanUps) -> Turn<F>
    ensures { result ≡ done place more }
{
    Turn::WindsUp(Ending::Answers(Answer::Done, Some(place)), more)
}

/// A message did not succeed: the clean-up, and then what its reply says.
pub fn failed<F>(clean_ups: CleanUps, place: Place, reply: &Reply) -> Turn<F>
    ensures { result ≡ fails clean_ups place reply.now }
{
    let ending = match reply {
        Reply::Busy { by, .. } => Ending::Answers(Answer::Again(*by), Some(place)),
        Reply::Refused(error) => Ending::Answers(Answer::Refused(*error), Some(place)),
        Reply::NoMem => Ending::Answers(Answer::NoMemory, None),
        _ => Ending::Retries,
    };
    Turn::WindsUp(ending, clean_ups)
}
