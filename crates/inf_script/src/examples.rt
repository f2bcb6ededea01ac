//! What some texts say, and laws of all of them. These functions do nothing: their contracts are what is proved.

ghost use Rattle.inf_script.specs.Examples.{ScriptsAreRead, CallsAreRead, LinesAreRefused, WordsAreRefused, PathsAreRefused, MovesAreRefused, LimitsHold, TooLongIsRefused};

/// Scripts with each kind of line.
pub fn scripts_are_read()
    ensures { ScriptsAreRead }
{}

/// Call lines of each kind, with the least and the greatest of what a word may be.
pub fn calls_are_read()
    ensures { CallsAreRead }
{}

/// A text for each fault of the lines.
pub fn lines_are_refused()
    ensures { LinesAreRefused }
{}

/// A text for each fault of the words.
pub fn words_are_refused()
    ensures { WordsAreRefused }
{}

/// A text for each fault of a path.
pub fn paths_are_refused()
    ensures { PathsAreRefused }
{}

/// A text for each fault of a move.
pub fn moves_are_refused()
    ensures { MovesAreRefused }
{}

/// The limits of a script, as numbers: what keeps them, and one more.
pub fn limits_hold()
    ensures { LimitsHold }
{}

/// A text that is longer than a script may be is refused, whatever it begins with.
pub fn too_long_is_refused()
    ensures { TooLongIsRefused }
{}
