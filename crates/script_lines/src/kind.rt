//! How a store answers a call that a script has chosen.
ghost use Rattle.std.specs.Prelude.{◌≡◌};
ghost use Rattle.script_lines.specs.Names.{kind_name, kind_named};

/// What becomes of a store call that a script has chosen.
#[derive(Clone, Copy, Debug, PartialEq, Eq)]
pub enum Kind {
    /// It takes effect, and its answer comes.
    Pass,
    /// It has no effect, and is answered as lost.
    Lost,
    /// It takes effect, and is answered as lost.
    Mute,
    /// It goes in flight, and is answered as lost.
    Late,
    /// It takes effect and is repeated, and the second answer comes.
    Twice,
}

const KINDS: [Kind; 5] = [Kind::Pass, Kind::Lost, Kind::Mute, Kind::Late, Kind::Twice];

impl Kind {
    /// The word for this kind.
    pub fn name(self) -> &'static str
        ensures { result.now ≡ kind_name self }
    {
        match self {
            Kind::Pass => "pass",
            Kind::Lost => "lost",
            Kind::Mute => "mute",
            Kind::Late => "late",
            Kind::Twice => "twice",
        }
    }

    /// The kind of that name, or `None` where the word is no kind.
    pub fn from_word(word: &str) -> Option<Kind>
        ensures { result ≡ kind_named word.now }
    {
        KINDS.iter().copied().find(|kind| kind.name() == word)
    }
}
