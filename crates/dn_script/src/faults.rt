ghost use Rattle.std.specs.Prelude.{◌≡◌};
ghost use Rattle.dn_script.specs.Bad.{name_of};

use thiserror::Error;

/// Why a line isn't of the grammar. Where several hold of a line, the first of this list is told, and of the last six
/// the one of the line's first bad field.
#[derive(Clone, Copy, Debug, PartialEq, Eq, Drop)]
pub enum Cause {
    /// It is the last line and has no newline.
    Cut,
    /// It has more than 4,096 bytes.
    Long,
    /// It has a byte outside 32 to 126.
    Byte,
    /// No line of the grammar, as far as it is played, begins so.
    Verb,
    /// Its mode doesn't have such lines.
    Mode,
    /// It is a header line behind another line, or the second of its kind.
    Header,
    /// It has too few fields or too many.
    Count,
    /// A session out of form or range.
    Session,
    /// A lane out of form or range.
    Lane,
    /// A key out of form or range.
    Key,
    /// A value out of form, or with too many bytes.
    Value,
    /// A number of segments out of form, or more than the pool has.
    Pool,
    /// Any other number out of form or range.
    Number,
}

impl Cause {
    /// The word that is printed for it.
    pub fn name(&self) -> &str
        ensures { result.now ≡ name_of self.now }
    {
        match self {
            Cause::Cut => "cut",
            Cause::Long => "long",
            Cause::Byte => "byte",
            Cause::Verb => "verb",
            Cause::Mode => "mode",
            Cause::Header => "header",
            Cause::Count => "count",
            Cause::Session => "session",
            Cause::Lane => "lane",
            Cause::Key => "key",
            Cause::Value => "value",
            Cause::Pool => "pool",
            Cause::Number => "number",
        }
    }
}

/// Why bytes are no script.
#[derive(Clone, Copy, Debug, PartialEq, Eq, Drop, Error)]
pub enum ParseFault {
    /// The first line outside the grammar, by its number from 1, and why it is outside.
    #[error("line {line} isn't of the grammar")]
    Bad { line: u64, cause: Cause },
    /// There are more than 1,000,000 lines, whatever they are.
    #[error("more than 1,000,000 lines")]
    Lines,
    /// Want of memory.
    #[error("out of memory")]
    OutOfMemory,
}
