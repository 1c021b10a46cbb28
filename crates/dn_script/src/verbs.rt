ghost use Rattle.std.specs.Prelude.{◌≡◌};
ghost use Rattle.dn_script.specs.Word.{word_of, is_among};

/// A word of the grammar, or another part of it that may be played or not.
///
/// A line is of the grammar only where each of its row's words is among those that are played.
#[derive(Clone, Copy, Debug, PartialEq, Eq, Drop)]
pub enum Verb {
    Pool,
    Nodes,
    Cache,
    Get,
    Put,
    Delete,
    /// The lane that a call may name by `@` and its number.
    Lane,
    /// The sessions but the first.
    Sessions,
    /// The word that leads a call or an order which is only begun.
    Start,
    Step,
    Flow,
    Merge,
    Monitor,
    Add,
    Move,
    Fence,
    Takeover,
    Balance,
    Remove,
    Stop,
    Fuse,
    Fail,
    Trim,
    Tell,
}

/// What is played so far.
pub const PLAYED: [Verb; 16] = [
    Verb::Pool,
    Verb::Nodes,
    Verb::Get,
    Verb::Put,
    Verb::Delete,
    Verb::Lane,
    Verb::Sessions,
    Verb::Start,
    Verb::Step,
    Verb::Flow,
    Verb::Merge,
    Verb::Monitor,
    Verb::Add,
    Verb::Move,
    Verb::Tell,
    Verb::Trim,
];

impl Verb {
    /// Its word in a script. Of lanes and sessions it is the byte in front of the number.
    pub(crate) fn word(self) -> &'static [u8]
        ensures { result.now ≡ word_of self }
    {
        match self {
            Verb::Pool => b"pool",
            Verb::Nodes => b"nodes",
            Verb::Cache => b"cache",
            Verb::Get => b"get",
            Verb::Put => b"put",
            Verb::Delete => b"del",
            Verb::Lane => b"@",
            Verb::Sessions => b"c",
            Verb::Start => b"start",
            Verb::Step => b"step",
            Verb::Flow => b"flow",
            Verb::Merge => b"merge",
            Verb::Monitor => b"monitor",
            Verb::Add => b"add",
            Verb::Move => b"move",
            Verb::Fence => b"fence",
            Verb::Takeover => b"takeover",
            Verb::Balance => b"balance",
            Verb::Remove => b"remove",
            Verb::Stop => b"stop",
            Verb::Fuse => b"fuse",
            Verb::Fail => b"fail",
            Verb::Trim => b"trim",
            Verb::Tell => b"tell",
        }
    }

    /// Whether it is one of these.
    pub(crate) fn is_among(self, verbs: &[Verb]) -> bool
        ensures { result ≡ is_among self verbs.now }
    {
        verbs.iter().any(|verb| *verb == self)
    }
}
