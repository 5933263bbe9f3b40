//! The requests that words ask for, each with its arguments.

ghost use Rattle.std.specs.Prelude.{◌≡◌, ◌≤◌, drop, length, map, option_map};
ghost use Rattle.std.specs.Map.{lookup};
ghost use Rattle.std.specs.Result.{IsErrOf};
ghost use Rattle.std.specs.Str.{bytes_eq};
ghost use Rattle.tile_arguments.specs.RequestStands.{request_of};
ghost use Rattle.tile_script.specs.Commands.{read_by};
ghost use Rattle.tile_script.specs.Line.{alone_of, name_of, list_of, requests, requests_alone, edit_by, request_by, asked_by};
ghost use Rattle.tile_lines.specs.Answers.{Gives, GivesAlways};
ghost use Rattle.tile_lines.specs.WordStands.{word_of};

use crate::commands::{chosen, command, is};
use mvt_document::Items;
use std::alloc::Global;
use tile_arguments::{Request, What, layer_choice, text_argument};
use tile_lines::{ParseError, Word};

/// The request that the words of a line ask for.
#[tactic(auto, unfolding(crate::specs::Line::asked_by))]
pub(crate) fn request(alloc: Global, words: &[Word<'_>]) -> Result<Request, ParseError>
    ensures answer { Gives request_of result (asked_by (map word_of words.now)) }
    ensures no_memory { IsErrOf result ParseError.NoMemory → 2 ≤ length words.now }
{
    let [Word::Bare(name), arguments @ ..] = words else {
        return Err(ParseError::UnknownCommand);
    };
    named(alloc, name, arguments)
}

/// The request that begins with this word, with its arguments.
#[tactic(auto, unfolding(crate::specs::Line::request_by))]
fn named(alloc: Global, name: &[u8], arguments: &[Word<'_>]) -> Result<Request, ParseError>
    ensures answer { Gives request_of result (request_by name.now (map word_of arguments.now)) }
    ensures no_memory { IsErrOf result ParseError.NoMemory → 1 ≤ length arguments.now }
{
    if is(name, b"mark") {
        Ok(Request::Mark(mark_name(alloc, arguments)?))
    } else if is(name, b"unmark") {
        Ok(Request::Unmark(mark_name(alloc, arguments)?))
    } else if is(name, b"back") {
        Ok(Request::Back(mark_name(alloc, arguments)?))
    } else {
        other_request(alloc, name, arguments)
    }
}

/// The same for the requests after those on marks.
fn other_request(alloc: Global, name: &[u8], arguments: &[Word<'_>]) -> Result<Request, ParseError>
    ensures answer { Gives request_of result (read_by (drop 3 requests) (edit_by name.now (map word_of arguments.now)) name.now (map word_of arguments.now)) }
    ensures no_memory { IsErrOf result ParseError.NoMemory → 1 ≤ length arguments.now }
{
    match lone_request(name) {
        Some(request) => alone(request, arguments),
        None => list_or_edit(alloc, name, arguments),
    }
}

/// The same for the requests after those of a single word.
fn list_or_edit(alloc: Global, name: &[u8], arguments: &[Word<'_>]) -> Result<Request, ParseError>
    ensures answer { Gives request_of result (read_by (drop 11 requests) (edit_by name.now (map word_of arguments.now)) name.now (map word_of arguments.now)) }
    ensures no_memory { IsErrOf result ParseError.NoMemory → 1 ≤ length arguments.now }
{
    if is(name, b"list") {
        list(alloc, arguments)
    } else {
        Ok(Request::Edit(command(alloc, name, arguments)?))
    }
}

/// The request that this word is by itself.
fn lone_request(name: &[u8]) -> Option<Request>
    ensures { option_map request_of result ≡ lookup (bytes_eq name.now) requests_alone }
{
    if is(name, b"undo") {
        Some(Request::Undo)
    } else if is(name, b"redo") {
        Some(Request::Redo)
    } else if is(name, b"marks") {
        Some(Request::Marks)
    } else if is(name, b"history") {
        Some(Request::History)
    } else if is(name, b"begin") {
        Some(Request::Begin)
    } else if is(name, b"end") {
        Some(Request::End)
    } else if is(name, b"cancel") {
        Some(Request::Cancel)
    } else if is(name, b"size") {
        Some(Request::Size)
    } else {
        None
    }
}

/// The request, where it has no arguments.
#[tactic(auto, unfolding(crate::specs::Line::alone_of))]
fn alone(request: Request, arguments: &[Word<'_>]) -> Result<Request, ParseError>
    ensures { GivesAlways request_of result (alone_of (request_of request) (map word_of arguments.now)) }
{
    arguments
        .is_empty()
        .then_some(request)
        .ok_or(ParseError::BadArguments)
}

/// The name of a mark.
#[tactic(auto, unfolding(crate::specs::Line::name_of))]
fn mark_name(alloc: Global, arguments: &[Word<'_>]) -> Result<Items<u8>, ParseError>
    ensures answer { Gives (λ name. name.items) result (name_of (map word_of arguments.now)) }
    ensures no_memory { IsErrOf result ParseError.NoMemory → 1 ≤ length arguments.now }
{
    let [name] = arguments else {
        return Err(ParseError::BadArguments);
    };
    text_argument(alloc, *name)
}

#[tactic(auto, unfolding(crate::specs::Line::list_of))]
fn list(alloc: Global, arguments: &[Word<'_>]) -> Result<Request, ParseError>
    ensures answer { Gives request_of result (list_of (map word_of arguments.now)) }
    ensures no_memory { IsErrOf result ParseError.NoMemory → 1 ≤ length arguments.now }
{
    match arguments {
        [] => Ok(Request::List(What::Whole)),
        [layer] => Ok(Request::List(What::OneLayer(layer_choice(alloc, *layer)?))),
        [layer, feature] => {
            let (layer, feature) = chosen(alloc, *layer, *feature)?;
            Ok(Request::List(What::OneFeature(layer, feature)))
        }
        _ => Err(ParseError::BadArguments),
    }
}
