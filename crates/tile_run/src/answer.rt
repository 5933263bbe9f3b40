//! `carry_out_request`: a request, carried out in a session, with the lines that it prints.

ghost use Rattle.std.specs.Prelude.{◌≡◌, ◌⊎◌, [], IfErr};
ghost use Rattle.mvt_history_steps.specs.History.{History};
ghost use Rattle.mvt_history_steps.specs.Session.{StandsFor, IsStop};
ghost use Rattle.tile_arguments.specs.RequestStands.{request_of};
ghost use Rattle.tile_course.specs.Replies.{refusal_number};
ghost use Rattle.tile_course.specs.Answers.{IsAnswered};
ghost use Rattle.tile_run.specs.Steps.{ChangesHistory, AnswersChange};

use crate::printed::{history_lines, mark_lines, size_line};
use mvt_document::Items;
use mvt_history::{HistoryError, Session};
use std::alloc::Global;
use tile_arguments::Request;
use tile_course::Refused;
use tile_listing::listing;

/// Carries out a request, and returns the lines that it prints, each with its line feed.
pub(crate) fn carry_out_request(
    alloc: Global,
    session: &mut Session,
    request: &Request,
) -> Result<Items<u8>, Refused>
    ensures answer { (history : History) → StandsFor session.old history →
        IsAnswered (request_of request.now) history result session.new }
    ensures err { IfErr result (λ reason. (session.new ≡ session.old) ⊎ (refusal_number reason ≡ 54)) }
{
    match request {
        Request::Edit(command) => {
            session.command(command)?;
            Ok(no_lines(alloc))
        }
        Request::Marks => Ok(mark_lines(alloc, session)?),
        Request::History => Ok(history_lines(alloc, session)?),
        Request::Size => Ok(size_line(alloc, session.document())?),
        Request::List(what) => Ok(listing(alloc, session.document(), what)?),
        _ => {
            change_history(session, request)?;
            Ok(no_lines(alloc))
        }
    }
}

/// Carries out a request that changes the history, and is not a command.
fn change_history(session: &mut Session, request: &Request) -> Result<(), HistoryError>
    requires { ChangesHistory (request_of request.now) }
    ensures answer { (history : History) → StandsFor session.old history →
        AnswersChange (request_of request.now) history result session.new }
    ensures err { IfErr result (λ error. (session.new ≡ session.old) ⊎ IsStop error) }
{
    match request {
        Request::Undo => session.undo(),
        Request::Redo => session.redo(),
        Request::Mark(name) => session.mark(name.as_slice()),
        Request::Unmark(name) => session.unmark(name.as_slice()),
        Request::Back(name) => session.back(name.as_slice()),
        Request::Begin => session.begin(),
        Request::End => session.end(),
        Request::Cancel => session.cancel(),
        _ => unreachable!(),
    }
}

fn no_lines(alloc: Global) -> Items<u8>
    ensures { result.items ≡ [] }
{
    Items::from_vec(Vec::new(alloc))
}
