//! Why a line was refused, in the words of a reply.

ghost use Rattle.std.specs.Prelude.{◌≡◌};
ghost use Rattle.tile_course.specs.Replies.{refusal_number, refusal_name};
ghost use Rattle.tile_course.specs.declared.refused.Refused.TheVariants.{Edit, History, Parse};

use mvt_history_steps::HistoryError;
use mvt_meaning::Refusal;
use thiserror::Error;
use tile_lines::ParseError;

/// Why a line was refused.
#[derive(Clone, Copy, Debug, PartialEq, Eq, Error)]
pub enum Refused {
    /// It asks for nothing that is known.
    #[error("{0}")]
    Parse(ParseError),
    /// The tile does not allow what it asks for.
    #[error("{0}")]
    Edit(Refusal),
    /// The history does not allow it.
    #[error("{0}")]
    History(HistoryError),
}

impl From<Refusal> for Refused {
    ghost from_gives = { λ refusal refused. refused ≡ Edit refusal };

    fn from(refusal: Refusal) -> Refused {
        Refused::Edit(refusal)
    }
}

impl From<HistoryError> for Refused {
    ghost from_gives = { λ error refused. refused ≡ History error };

    fn from(error: HistoryError) -> Refused {
        Refused::History(error)
    }
}

impl Refused {
    /// The number that a reply prints.
    pub fn number(self) -> u8
        ensures { result ≡ refusal_number self }
    {
        let (number, _) = self.number_and_name();
        number
    }

    /// The name that a reply prints.
    pub fn name(self) -> &'static str
        ensures { result.now ≡ refusal_name self }
    {
        let (_, name) = self.number_and_name();
        name
    }

    fn number_and_name(self) -> (u8, &'static str)
        ensures number { result.0 ≡ refusal_number self }
        ensures name { result.1.now ≡ refusal_name self }
    {
        match self {
            Refused::Parse(error) => of_words(error),
            Refused::Edit(refusal) => of_tile(refusal),
            Refused::History(error) => of_history(error),
        }
    }
}

/// The number and the name of what the words of a line are refused for.
fn of_words(error: ParseError) -> (u8, &'static str)
    ensures number { result.0 ≡ refusal_number (Parse error) }
    ensures name { result.1.now ≡ refusal_name (Parse error) }
{
    match error {
        ParseError::BadUtf8 => (10, "BadUtf8"),
        ParseError::BadWord => (11, "BadWord"),
        ParseError::UnknownCommand => (12, "UnknownCommand"),
        ParseError::BadArguments => (13, "BadArguments"),
        ParseError::BadNumber => (14, "BadNumber"),
        ParseError::BadValue => (15, "BadValue"),
        ParseError::BadGeometryText => (16, "BadGeometryText"),
        ParseError::LineTooLong => (17, "LineTooLong"),
        ParseError::NoMemory => (60, "NoMemory"),
    }
}

/// The number and the name of what the tile does not allow.
fn of_tile(refusal: Refusal) -> (u8, &'static str)
    ensures number { result.0 ≡ refusal_number (Edit refusal) }
    ensures name { result.1.now ≡ refusal_name (Edit refusal) }
{
    match refusal {
        Refusal::NoLayer => (20, "NoLayer"),
        Refusal::AmbiguousLayer => (21, "AmbiguousLayer"),
        Refusal::NoFeature => (22, "NoFeature"),
        Refusal::NoKey => (23, "NoKey"),
        Refusal::BadPlace => (24, "BadPlace"),
        Refusal::AmbiguousFeature => (25, "AmbiguousFeature"),
        Refusal::BadTags { .. } => (30, "BadTags"),
        Refusal::RepeatedKey { .. } => (31, "RepeatedKey"),
        Refusal::BadGeometry { .. } => (32, "BadGeometry"),
        Refusal::NameTaken => (40, "NameTaken"),
        Refusal::KeyTaken => (41, "KeyTaken"),
        Refusal::OutOfRange => (42, "OutOfRange"),
        Refusal::TooLarge => (43, "TooLarge"),
        Refusal::NoMemory => (60, "NoMemory"),
    }
}

/// The number and the name of what the history does not allow.
fn of_history(error: HistoryError) -> (u8, &'static str)
    ensures number { result.0 ≡ refusal_number (History error) }
    ensures name { result.1.now ≡ refusal_name (History error) }
{
    match error {
        HistoryError::NothingToUndo => (50, "NothingToUndo"),
        HistoryError::NothingToRedo => (51, "NothingToRedo"),
        HistoryError::NoMark => (52, "NoMark"),
        HistoryError::TooManyMarks => (53, "TooManyMarks"),
        HistoryError::Stopped { .. } => (54, "Stopped"),
        HistoryError::GroupOpen => (55, "GroupOpen"),
        HistoryError::NoGroup => (56, "NoGroup"),
        HistoryError::NoMemory => (60, "NoMemory"),
    }
}
