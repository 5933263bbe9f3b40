//! Scripts: how they are cut into lines, what a line asks for, and how a refused one is replied to.

use crate::calls::arguments::layer_shown;
use crate::calls::broken::{Answer, Broken};
use crate::calls::given::{Given, said, shown};
use mvt_history_steps::HistoryError;
use mvt_meaning::{Command, Refusal};
use std::alloc::{AllocError, Global};
use tile_arguments::{Request, What};
use tile_course::{Refused, reply};
use tile_device::{FromWrite, Retries};
use tile_lines::{Cut, LineCutter, ParseError};
use tile_script::parse_line;

pub fn answer(alloc: Global, call: &str, given: Given<'_>) -> Answer {
    match call {
        "parse_line" => parsed(alloc, given.bytes),
        "lines" => Ok(lines_cut(alloc, given.bytes)?),
        "reply" => {
            let (line, reason) = given.number_and_rest()?;
            replied(alloc, line, reason)
        }
        _ => Err(Broken::NoCall),
    }
}

fn parsed(alloc: Global, line: &[u8]) -> Answer {
    match parse_line(alloc, line) {
        Ok(Some(request)) => asked(alloc, request),
        Ok(None) => said(alloc, "no request"),
        Err(error) => shown(alloc, error),
    }
}

/// The request as it is shown. It is dropped on one way out.
fn asked(alloc: Global, request: Request) -> Answer {
    request_shown(alloc, &request)
}

/// The request, with names in hexadecimal digits.
fn request_shown(alloc: Global, request: &Request) -> Answer {
    match request {
        Request::Mark(name) => named(alloc, "Mark", name.as_slice()),
        Request::Unmark(name) => named(alloc, "Unmark", name.as_slice()),
        Request::Back(name) => named(alloc, "Back", name.as_slice()),
        Request::Edit(Command::RenameLayer { layer, name }) => {
            renaming(alloc, &layer_shown(alloc, layer)?, name.as_slice())
        }
        Request::List(What::OneLayer(layer)) => listed(alloc, layer_shown(alloc, layer)?, ""),
        Request::List(What::OneFeature(layer, feature)) => {
            let feature = format!(in alloc; " {feature:?}")?;
            listed(alloc, layer_shown(alloc, layer)?, feature.as_str())
        }
        request => shown(alloc, request),
    }
}

fn named(alloc: Global, word: &str, name: &[u8]) -> Answer {
    Ok(format!(in alloc; "{word} {}", hex::encode(alloc, name)?)?.into_bytes())
}

fn renaming(alloc: Global, layer: &[u8], name: &[u8]) -> Answer {
    let mut line = named(alloc, "RenameLayer to", name)?;
    line.push(b' ')?;
    line.extend_from_slice(layer)?;
    Ok(line)
}

fn listed(alloc: Global, layer: Vec<u8>, feature: &str) -> Answer {
    let mut line = b"List ".to_vec(alloc)?;
    line.extend_from_slice(&layer)?;
    line.extend_from_slice(feature.as_bytes())?;
    Ok(line)
}

/// The lines that the script completes, each with a bar after it, and then what is held of a line
/// that is not complete.
fn lines_cut(alloc: Global, script: &[u8]) -> Result<Vec<u8>, AllocError> {
    let mut cutter = LineCutter::new(alloc)?;
    let mut lines = Vec::new(alloc);
    for byte in script {
        cutter.push(*byte);
        if let Some(cut) = cutter.line() {
            put_cut(&mut lines, cut)?;
            lines.push(b'|')?;
        }
    }
    if let Some(cut) = cutter.rest() {
        put_cut(&mut lines, cut)?;
    }
    Ok(lines)
}

fn put_cut(lines: &mut Vec<u8>, cut: Cut<'_>) -> Result<(), AllocError> {
    match cut {
        Cut::Line(line) => lines.extend_from_slice(line),
        Cut::TooLong => lines.extend_from_slice(b"(too long)"),
    }
}

/// All reasons for which a line is refused.
pub const REASONS: [Refused; 34] = [
    Refused::Parse(ParseError::BadUtf8),
    Refused::Parse(ParseError::BadWord),
    Refused::Parse(ParseError::UnknownCommand),
    Refused::Parse(ParseError::BadArguments),
    Refused::Parse(ParseError::BadNumber),
    Refused::Parse(ParseError::BadValue),
    Refused::Parse(ParseError::BadGeometryText),
    Refused::Parse(ParseError::LineTooLong),
    Refused::Parse(ParseError::NoMemory),
    Refused::Edit(Refusal::NoLayer),
    Refused::Edit(Refusal::AmbiguousLayer),
    Refused::Edit(Refusal::NoFeature),
    Refused::Edit(Refusal::NoKey),
    Refused::Edit(Refusal::BadPlace),
    Refused::Edit(Refusal::AmbiguousFeature),
    Refused::Edit(Refusal::BadTags {
        layer: 0,
        feature: 0,
    }),
    Refused::Edit(Refusal::BadTags {
        layer: 1,
        feature: 20,
    }),
    Refused::Edit(Refusal::RepeatedKey {
        layer: 2,
        feature: 300,
    }),
    Refused::Edit(Refusal::BadGeometry {
        layer: 30,
        feature: 4,
    }),
    Refused::Edit(Refusal::NameTaken),
    Refused::Edit(Refusal::KeyTaken),
    Refused::Edit(Refusal::OutOfRange),
    Refused::Edit(Refusal::TooLarge),
    Refused::Edit(Refusal::NoMemory),
    Refused::History(HistoryError::NothingToUndo),
    Refused::History(HistoryError::NothingToRedo),
    Refused::History(HistoryError::NoMark),
    Refused::History(HistoryError::TooManyMarks),
    Refused::History(HistoryError::GroupOpen),
    Refused::History(HistoryError::NoGroup),
    Refused::History(HistoryError::NoMemory),
    Refused::History(HistoryError::Stopped { taken: 0 }),
    Refused::History(HistoryError::Stopped { taken: 2 }),
    Refused::History(HistoryError::Stopped { taken: 10_000 }),
];

/// The reply to the line of this number, which is refused for the reason that `Debug` prints so.
fn replied(alloc: Global, line: u64, shown: &str) -> Answer {
    for reason in REASONS {
        if format!(in alloc; "{reason:?}")?.as_str() == shown {
            return refused(alloc, line, reason);
        }
    }
    Err(Broken::BadGiven)
}

/// The reply to the line of this number, which is refused for this reason.
fn refused(alloc: Global, line: u64, reason: Refused) -> Answer {
    let mut replies = FromWrite::new(Vec::new(alloc));
    match reply(&mut replies, line, Err(reason), &mut Retries::new(0)) {
        Ok(()) => Ok(replies.into_inner()),
        Err(_) => Err(Broken::NoMemory),
    }
}
