//! The sections of a script.

ghost use Rattle.std.specs.Prelude.{◌≡◌};
ghost use Rattle.inf_script.specs.Draft.{rank, may_stand};

/// The sections in the order in which their lines stand, and with `Start` and `Ended` how far the reading has come.
#[derive(Clone, Copy, Debug, PartialEq, Eq)]
pub enum Section {
    /// Nothing was read.
    Start,
    /// The first line, and the settings behind it.
    Settings,
    Clients,
    Calls,
    Order,
    /// The line `end`.
    Ended,
}

impl Section {
    pub fn rank(self) -> u8
        ensures { result ≡ rank self }
    {
        match self {
            Section::Start => 0,
            Section::Settings => 1,
            Section::Clients => 2,
            Section::Calls => 3,
            Section::Order => 4,
            Section::Ended => 5,
        }
    }

    /// Whether a line of this section may stand where the reading has come so far.
    pub fn may_stand(self, reached: Section) -> bool
        ensures { result ≡ may_stand self reached }
    {
        1 <= reached.rank() && reached.rank() <= self.rank()
    }
}
