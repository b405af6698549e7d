//! The first word of a line of a script.
ghost use Rattle.std.specs.Prelude.{◌≡◌};
ghost use Rattle.script_lines.specs.Names.{verb_name, verb_of};

/// What a line of a script asks for, by its first word.
#[derive(Clone, Copy, Debug, PartialEq, Eq)]
pub enum Verb {
    Create,
    Append,
    Close,
    Checkpoint,
    Snapshot,
    History,
    Tail,
    Show,
    Hex,
    Tries,
    Fault,
    Start,
    Until,
    Step,
    Finish,
    Die,
    Land,
    Foreign,
}

const VERBS: [Verb; 18] = [
    Verb::Create,
    Verb::Append,
    Verb::Close,
    Verb::Checkpoint,
    Verb::Snapshot,
    Verb::History,
    Verb::Tail,
    Verb::Show,
    Verb::Hex,
    Verb::Tries,
    Verb::Fault,
    Verb::Start,
    Verb::Until,
    Verb::Step,
    Verb::Finish,
    Verb::Die,
    Verb::Land,
    Verb::Foreign,
];

impl Verb {
    /// The word that a line of this verb begins with.
    pub fn name(self) -> &'static str
        ensures { result.now ≡ verb_name self }
    {
        match self {
            Verb::Create => "create",
            Verb::Append => "append",
            Verb::Close => "close",
            Verb::Checkpoint => "checkpoint",
            Verb::Snapshot => "snapshot",
            Verb::History => "history",
            Verb::Tail => "tail",
            Verb::Show => "show",
            Verb::Hex => "hex",
            Verb::Tries => "tries",
            Verb::Fault => "fault",
            Verb::Start => "start",
            Verb::Until => "until",
            Verb::Step => "step",
            Verb::Finish => "finish",
            Verb::Die => "die",
            Verb::Land => "land",
            Verb::Foreign => "foreign",
        }
    }

    /// The verb of that name, or `None` where the word is no verb.
    pub fn from_word(word: &str) -> Option<Verb>
        ensures { result ≡ verb_of word.now }
    {
        VERBS.iter().copied().find(|verb| verb.name() == word)
    }
}
