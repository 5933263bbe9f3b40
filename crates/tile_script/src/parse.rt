//! `parse_line`: what a line asks for, or why it is refused.

ghost use Rattle.std.specs.Prelude.{◌≡◌, ℕ, List, option_map};
ghost use Rattle.std.specs.Result.{IsErrOf};
ghost use Rattle.tile_lines.specs.Cutting.{cut_of, Whole};
ghost use Rattle.tile_lines.specs.CutStands.{cut_seen};
ghost use Rattle.tile_arguments.specs.RequestStands.{request_of};
ghost use Rattle.tile_script.specs.Line.{request_in, is_remark, answer_to, HasSeveralWords, TakesMemory};
ghost use Rattle.tile_lines.specs.Answers.{Gives};

use crate::requests::request;
use std::alloc::Global;
use tile_arguments::Request;
use tile_lines::{Cut, LINE_LIMIT, ParseError, after_blanks, is_utf8, lone_word, words_of};

/// The request that a line asks for, or nothing where it is blank or a comment.
#[tactic(auto, unfolding(crate::specs::Line::answer_to), using(crate::proofs::Silent::asks_something))]
pub fn parse_line(alloc: Global, line: &[u8]) -> Result<Option<Request>, ParseError>
    ensures answer { Gives (option_map request_of) result (answer_to line.now) }

    // Memory never runs out for a line that is too long or not UTF-8, a blank line, a comment, a
    // single word, or a line in which something is not a word.
    ensures no_memory { IsErrOf result ParseError.NoMemory → TakesMemory line.now }
{
    if line.len() > LINE_LIMIT {
        return Err(ParseError::LineTooLong);
    }
    if !is_utf8(line) {
        return Err(ParseError::BadUtf8);
    }
    if is_remark(line) {
        return Ok(None);
    }
    Ok(Some(request_in(alloc, line)?))
}

/// The request that a line that was cut like this asks for, or nothing where it is blank or a
/// comment.
#[tactic(auto, using(crate::proofs::LongLines::too_long_answered))]
pub fn parse_cut(alloc: Global, cut: Cut<'_>) -> Result<Option<Request>, ParseError>
    ensures answer { (line : List ℕ) → cut_of line ≡ cut_seen cut.entry
        → Gives (option_map request_of) result (answer_to line) }

    // Where memory never runs out for a line, it never does for its cut.
    ensures no_memory { (line : List ℕ) → cut_of line ≡ cut_seen cut.entry
        → IsErrOf result ParseError.NoMemory → TakesMemory line }

    // The same of the line that a cut holds, also of one that no cutter leaves whole.
    ensures line { (line : List ℕ) → cut_seen cut.entry ≡ Whole line
        → Gives (option_map request_of) result (answer_to line) }
    ensures line_no_memory { (line : List ℕ) → cut_seen cut.entry ≡ Whole line
        → IsErrOf result ParseError.NoMemory → TakesMemory line }
{
    match cut {
        Cut::Line(line) => parse_line(alloc, line),
        Cut::TooLong => Err(ParseError::LineTooLong),
    }
}

fn is_remark(line: &[u8]) -> bool
    ensures { result ≡ is_remark line.now }
{
    match after_blanks(line) {
        [] => true,
        [byte, ..] => *byte == b'#',
    }
}

#[tactic(auto, unfolding(crate::specs::Line::request_in))]
fn request_in(alloc: Global, line: &[u8]) -> Result<Request, ParseError>
    ensures answer { Gives request_of result (request_in line.now) }
    ensures no_memory { IsErrOf result ParseError.NoMemory → HasSeveralWords line.now }
{
    if let Some(word) = lone_word(line) {
        return request(alloc, &[word]);
    }
    let words = words_of(alloc, line)?;
    request(alloc, &words)
}
