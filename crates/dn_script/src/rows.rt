//! The table of lines: a row for each, in its order.

ghost use Rattle.std.specs.Prelude.{◌≡◌};
ghost use Rattle.dn_script.specs.Table.{parts_of, is_of_storm, is_run, is_needed};

use crate::verbs::Verb;

/// What stands in one place of a row.
#[derive(Clone, Copy, Drop)]
pub(crate) enum Part {
    /// The word itself.
    Word(Verb),
    /// `c` and the number of a session.
    Session,
    /// `@` and the number of a lane.
    Named,
    /// The number of a lane.
    Lane,
    Key,
    Value,
    /// Segments of the pool.
    Segments,
    /// Lanes at the opening.
    Nodes,
    /// Units of a lane's cache.
    Units,
    /// A count of actions, which the line may leave out.
    Count,
    /// A count of actions.
    Actions,
    /// The place of a staged word.
    Index,
    /// The number of the session that tells.
    From,
    /// The number of the session that is told.
    To,
}

/// How a call stands in its line.
#[derive(Clone, Copy, Drop)]
pub(crate) enum Form {
    /// `cS` and the call.
    Plain,
    /// `cS @L` and the call.
    Named,
    /// `cS start` and the call.
    Started,
    /// `cS @L start` and the call.
    NamedStarted,
}

/// A row of the table.
#[derive(Clone, Copy, Drop)]
pub(crate) enum Row {
    Pool,
    Nodes,
    Cache,
    Get(Form),
    Put(Form),
    Delete(Form),
    Step,
    Flow,
    Merge,
    Monitor,
    Add,
    Move,
    Fence,
    Takeover,
    StartMove,
    StartTakeover,
    Balance,
    Remove,
    Stop,
    Fuse,
    Fail,
    Trim,
    Tell,
}

/// The rows in their order.
pub(crate) const TABLE: [Row; 32] = [
    Row::Pool,
    Row::Nodes,
    Row::Cache,
    Row::Get(Form::Plain),
    Row::Put(Form::Plain),
    Row::Delete(Form::Plain),
    Row::Get(Form::Named),
    Row::Put(Form::Named),
    Row::Delete(Form::Named),
    Row::Get(Form::Started),
    Row::Put(Form::Started),
    Row::Delete(Form::Started),
    Row::Get(Form::NamedStarted),
    Row::Put(Form::NamedStarted),
    Row::Delete(Form::NamedStarted),
    Row::Step,
    Row::Flow,
    Row::Merge,
    Row::Monitor,
    Row::Add,
    Row::Move,
    Row::Fence,
    Row::Takeover,
    Row::StartMove,
    Row::StartTakeover,
    Row::Balance,
    Row::Remove,
    Row::Stop,
    Row::Fuse,
    Row::Fail,
    Row::Trim,
    Row::Tell,
];

/// The parts of a `get`, by its form.
fn get_parts(form: Form) -> &'static [Part]
    ensures { result.now ≡ parts_of (Row.Get form) }
{
    match form {
        Form::Plain => &[Part::Session, Part::Word(Verb::Get), Part::Key],
        Form::Named => &[Part::Session, Part::Named, Part::Word(Verb::Get), Part::Key],
        Form::Started => &[
            Part::Session,
            Part::Word(Verb::Start),
            Part::Word(Verb::Get),
            Part::Key,
        ],
        Form::NamedStarted => &[
            Part::Session,
            Part::Named,
            Part::Word(Verb::Start),
            Part::Word(Verb::Get),
            Part::Key,
        ],
    }
}

/// The parts of a `put`, by its form.
fn put_parts(form: Form) -> &'static [Part]
    ensures { result.now ≡ parts_of (Row.Put form) }
{
    match form {
        Form::Plain => &[Part::Session, Part::Word(Verb::Put), Part::Key, Part::Value],
        Form::Named => &[
            Part::Session,
            Part::Named,
            Part::Word(Verb::Put),
            Part::Key,
            Part::Value,
        ],
        Form::Started => &[
            Part::Session,
            Part::Word(Verb::Start),
            Part::Word(Verb::Put),
            Part::Key,
            Part::Value,
        ],
        Form::NamedStarted => &[
            Part::Session,
            Part::Named,
            Part::Word(Verb::Start),
            Part::Word(Verb::Put),
            Part::Key,
            Part::Value,
        ],
    }
}

/// The parts of a `del`, by its form.
fn delete_parts(form: Form) -> &'static [Part]
    ensures { result.now ≡ parts_of (Row.Delete form) }
{
    match form {
        Form::Plain => &[Part::Session, Part::Word(Verb::Delete), Part::Key],
        Form::Named => &[
            Part::Session,
            Part::Named,
            Part::Word(Verb::Delete),
            Part::Key,
        ],
        Form::Started => &[
            Part::Session,
            Part::Word(Verb::Start),
            Part::Word(Verb::Delete),
            Part::Key,
        ],
        Form::NamedStarted => &[
            Part::Session,
            Part::Named,
            Part::Word(Verb::Start),
            Part::Word(Verb::Delete),
            Part::Key,
        ],
    }
}

impl Row {
    /// What stands in its lines, in order.
    pub(crate) fn parts(self) -> &'static [Part]
        ensures { result.now ≡ parts_of self }
    {
        match self {
            Row::Pool => &[Part::Word(Verb::Pool), Part::Segments],
            Row::Nodes => &[Part::Word(Verb::Nodes), Part::Nodes],
            Row::Cache => &[Part::Word(Verb::Cache), Part::Units],
            Row::Get(form) => get_parts(form),
            Row::Put(form) => put_parts(form),
            Row::Delete(form) => delete_parts(form),
            Row::Step => &[Part::Word(Verb::Step), Part::Lane, Part::Count],
            Row::Flow => &[Part::Word(Verb::Flow), Part::Lane, Part::Index],
            Row::Merge => &[Part::Word(Verb::Merge), Part::Lane, Part::Count],
            Row::Monitor => &[Part::Word(Verb::Monitor), Part::Count],
            Row::Add => &[Part::Word(Verb::Add)],
            Row::Move => &[Part::Word(Verb::Move), Part::Key, Part::Lane],
            Row::Fence => &[Part::Word(Verb::Fence), Part::Lane],
            Row::Takeover => &[Part::Word(Verb::Takeover), Part::Lane],
            Row::StartMove => &[
                Part::Word(Verb::Start),
                Part::Word(Verb::Move),
                Part::Key,
                Part::Lane,
            ],
            Row::StartTakeover => &[
                Part::Word(Verb::Start),
                Part::Word(Verb::Takeover),
                Part::Lane,
            ],
            Row::Balance => &[Part::Word(Verb::Balance)],
            Row::Remove => &[Part::Word(Verb::Remove), Part::Lane],
            Row::Stop => &[Part::Word(Verb::Stop), Part::Lane],
            Row::Fuse => &[Part::Word(Verb::Fuse), Part::Lane, Part::Actions],
            Row::Fail => &[Part::Word(Verb::Fail), Part::Lane],
            Row::Trim => &[Part::Word(Verb::Trim), Part::Lane],
            Row::Tell => &[Part::Word(Verb::Tell), Part::From, Part::To],
        }
    }

    /// Whether a script for threads may have such lines.
    pub(crate) fn is_of_storm(self) -> bool
        ensures { result ≡ is_of_storm self }
    {
        match self {
            Row::Pool | Row::Nodes | Row::Cache => true,
            Row::Get(form) | Row::Put(form) | Row::Delete(form) => form.is_run(),
            Row::Move | Row::Fence | Row::Takeover => true,
            _ => false,
        }
    }
}

impl Form {
    /// Whether the call is run to its answer.
    fn is_run(self) -> bool
        ensures { result ≡ is_run self }
    {
        match self {
            Form::Plain | Form::Named => true,
            Form::Started | Form::NamedStarted => false,
        }
    }
}

impl Part {
    /// Whether a line has a field for it, even a short one.
    pub(crate) fn is_needed(self) -> bool
        ensures { result ≡ is_needed self }
    {
        !matches!(self, Part::Count)
    }
}
