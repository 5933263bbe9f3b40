//! Single calls of a session: what each answers and leaves. One that is refused memory has to leave
//! the session as it was, and is made again.
//!
//! The requests of a session are given as lines of a script with a bar between them. The last one
//! is the call that is looked at.

ghost use Rattle.std.specs.Prelude.{IfOk};
ghost use Rattle.mvt_wire.specs.Opens.{IsDocument};
ghost use Rattle.mvt_wire.specs.Stands.{document_of};

use crate::calls::broken::{Answer, Broken};
use crate::calls::given::{Given, said};
use mvt_history::{HistoryError, Session, StartError};
use mvt_meaning::Refusal;
use mvt_wire::{Document, read_document, write_document};
use std::alloc::{AllocError, Global};
use tile_arguments::Request;
use tile_course::Refused;
use tile_script::parse_line;

/// How many steps undo goes back at most.
const DEPTH: u32 = 100;

pub fn answer(alloc: Global, call: &str, given: Given<'_>) -> Answer {
    let requests = given.text()?;
    match call {
        "start" => started(alloc, given.tile),
        _ => called(alloc, call, &mut begun(alloc, given.tile)?, requests),
    }
}

fn document(alloc: Global, tile: &[u8]) -> Result<Document, Broken>
    ensures { IfOk result (λ document. IsDocument (document_of document)) }
{
    Ok(read_document(alloc, tile)?)
}

/// What is left where a session begins with the tile.
fn started(alloc: Global, tile: &[u8]) -> Answer {
    match Session::start(alloc, document(alloc, tile)?, DEPTH) {
        Ok(session) => left(alloc, "ok", &session),
        Err(StartError::NoMemory(handed_back)) => started_again(alloc, tile, &handed_back),
        Err(StartError::TooLarge(_)) => Err(Broken::BadTile),
    }
}

/// No session began, and the tile was handed back. With memory one begins.
fn started_again(alloc: Global, tile: &[u8], handed_back: &Document) -> Answer {
    if bytes_of(alloc, handed_back)?.as_slice() != tile {
        return said(alloc, "another tile is handed back");
    }
    left(alloc, "NoMemory, then ok", &begun(alloc, tile)?)
}

/// A session of the tile.
fn begun(alloc: Global, tile: &[u8]) -> Result<Session, Broken> {
    let Ok(session) = Session::start(alloc, document(alloc, tile)?, DEPTH) else {
        return Err(Broken::NoMemory);
    };
    Ok(session)
}

/// What the last of the requests is answered, once the others are made.
fn called(alloc: Global, call: &str, session: &mut Session, requests: &str) -> Answer {
    let (others, last) = requests.rsplit_once('|').unwrap_or(("", requests));
    for line in others.split('|') {
        make_line(alloc, session, line)?;
    }
    match parse_line(alloc, last.as_bytes()) {
        Ok(Some(request)) => look_at(alloc, call, session, request),
        _ => Err(Broken::BadGiven),
    }
}

/// Makes the request of a line, which is not refused, if it has one.
fn make_line(alloc: Global, session: &mut Session, line: &str) -> Result<(), Broken> {
    match parse_line(alloc, line.as_bytes()) {
        Ok(Some(request)) => make_other(session, request),
        Ok(None) => Ok(()),
        Err(_) => Err(Broken::BadGiven),
    }
}

fn make_other(session: &mut Session, request: Request) -> Result<(), Broken> {
    make(session, &request).map_err(|_| Broken::BadGiven)
}

/// The answer to the request, if the call is the one of the row. The request is dropped on one way
/// out.
fn look_at(alloc: Global, call: &str, session: &mut Session, request: Request) -> Answer {
    answer_of(alloc, call, session, &request)
}

fn answer_of(alloc: Global, call: &str, session: &mut Session, request: &Request) -> Answer {
    if name_of(session, request) != call {
        return Err(Broken::NoCall);
    }
    let before = seen(alloc, session)?;
    match make(session, request) {
        Ok(()) => left(alloc, "ok", session),
        Err(reason) => refused(alloc, session, request, reason, &before),
    }
}

/// The name of the call that makes the request.
fn name_of(session: &Session, request: &Request) -> &'static str {
    match request {
        Request::Edit(_) if session.open_len().is_some() => "command in a step",
        Request::Edit(_) => "command",
        Request::Undo => "undo",
        Request::Redo => "redo",
        Request::Mark(_) => "mark",
        Request::Unmark(_) => "unmark",
        Request::Back(_) => "back",
        Request::Begin => "begin",
        Request::End => "end",
        Request::Cancel => "cancel",
        _ => "",
    }
}

/// Makes a request. One that only looks makes nothing.
fn make(session: &mut Session, request: &Request) -> Result<(), Refused> {
    match request {
        Request::Edit(command) => session.command(command)?,
        Request::Undo => session.undo()?,
        Request::Redo => session.redo()?,
        Request::Mark(name) => session.mark(name.as_slice())?,
        Request::Unmark(name) => session.unmark(name.as_slice())?,
        Request::Back(name) => session.back(name.as_slice())?,
        Request::Begin => session.begin()?,
        Request::End => session.end()?,
        Request::Cancel => session.cancel()?,
        _ => {}
    }
    Ok(())
}

/// The request was refused, so the session is as it was before. If memory was refused, the request
/// is made again.
fn refused(
    alloc: Global,
    session: &mut Session,
    request: &Request,
    reason: Refused,
    before: &[u8],
) -> Answer {
    if seen(alloc, session)?.as_slice() != before {
        return said(alloc, "a refused request changed something");
    }
    match reason {
        Refused::Edit(Refusal::NoMemory) | Refused::History(HistoryError::NoMemory) => {
            again(alloc, session, request)
        }
        reason => left(alloc, format!(in alloc; "{reason:?}")?.as_str(), session),
    }
}

/// The request was refused memory. With memory it is accepted.
fn again(alloc: Global, session: &mut Session, request: &Request) -> Answer {
    match make(session, request) {
        Ok(()) => left(alloc, "NoMemory, then ok", session),
        Err(_) => said(alloc, "refused again"),
    }
}

/// How a request was answered, and what is then seen of the session.
fn left(alloc: Global, answered: &str, session: &Session) -> Answer {
    let mut line = Vec::from_slice(alloc, answered.as_bytes())?;
    line.extend_from_slice(&seen(alloc, session)?)?;
    Ok(line)
}

/// How far undo and redo go, how many commands the open step has, the marks, and the tile.
fn seen(alloc: Global, session: &Session) -> Answer {
    let (undo, redo) = (session.undo_len(), session.redo_len());
    let (depth, open) = (session.depth(), session.open_len());
    let shown = format!(in alloc; " undo {undo} redo {redo} depth {depth} open {open:?}")?;
    let mut line = shown.into_bytes();
    put_marks(alloc, session, &mut line)?;
    line.extend_from_slice(b" tile ")?;
    let tile = bytes_of(alloc, session.document())?;
    line.extend_from_slice(hex::encode(alloc, tile.as_slice())?.as_bytes())?;
    Ok(line)
}

fn bytes_of(alloc: Global, document: &Document) -> Answer {
    write_document(alloc, document).map_err(|_| Broken::NoMemory)
}

/// Each name, and how far its point is from the present one.
fn put_marks(alloc: Global, session: &Session, line: &mut Vec<u8>) -> Result<(), AllocError> {
    for index in 0..session.mark_count() {
        let Some((name, offset)) = session.mark_at(index) else {
            break;
        };
        line.extend_from_slice(b" mark ")?;
        line.extend_from_slice(name)?;
        let offset = format!(in alloc; " {offset}")?;
        line.extend_from_slice(offset.as_bytes())?;
    }
    Ok(())
}
