//! The script read piece by piece, each line carried out and replied to when it is complete.

ghost use Rattle.std.specs.Prelude.{◌≡◌, ℕ, ◌+◌, ◌^◌, ◌<◌, ◌≤◌, Bool, List, ◌++◌, false, length, IfSome};
ghost use Rattle.mvt_document.specs.Plain.{Document as PlainDocument};
ghost use Rattle.mvt_document.specs.Opens.{IsDocument};
ghost use Rattle.mvt_document.specs.Stands.{document_of};
ghost use Rattle.tile_device.specs.Seen.{Seen, source_at};
ghost use Rattle.tile_device.specs.Device.{trouble_of};
ghost use Rattle.tile_lines.specs.CutStands.{cut_seen};
ghost use Rattle.tile_lines.specs.Cutting.{cut_of, nothing_held};
ghost use Rattle.tile_lines.specs.Lines.{whole_lines};
ghost use Rattle.tile_course.specs.Replies.{answer_seen};
ghost use Rattle.mvt_history_steps.specs.History.{History, standing_document};
ghost use Rattle.mvt_history_steps.specs.Session.{StandsFor};
ghost use Rattle.mvt_history_steps.specs.declared.TheConstants.{MAX_DEPTH};
ghost use Rattle.tile_course.specs.Run.{Progress, at_first, is_over};
ghost use Rattle.tile_run.specs.Steps.{AnswersLine, CarriesOut, CarriesOutLines, CarriesOutPieces, CarriesOutScript, ComesTo, IsAt, Moment, WasGiven, ends_line, moment_at, settled, printed_in};

use crate::answer::carry_out_request;
use mvt_document::{Document, Items};
use mvt_history::Session;
use std::alloc::Global;
use tile_course::{LineStop, MAX_SCRIPT, Options, Refused, ScriptStop, reply};
use tile_device::{Retries, Sink, Source, read_some};
use tile_lines::{Cut, LineCutter};
use tile_script::parse_cut;

/// How many bytes of a script one read asks for at most.
const PIECE: usize = 4096;

/// A session, and what the lines so far have come to.
#[derive(Drop)]
pub(crate) struct Editor {
    session: Session,
    /// Whether the first refused line ends the run.
    strict: bool,
    /// How many lines there were so far, including blank ones and comments.
    lines: u64,
    any_refused: bool,
}

impl Editor {
    /// An editor of a document that no line has edited, or `None` where there is no memory for what
    /// its session keeps. A document that was read from a file is never too large for a session.
    pub(crate) fn start(alloc: Global, document: Document, options: Options) -> Option<Self>
        requires valid { IsDocument (document_of document) }
        requires some_depth { 1 ≤ options.depth }
        requires depth { options.depth ≤ MAX_DEPTH }
        ensures { IfSome result (λ editor. IsAt editor options.strict (at_first (document_of document) options.depth)) }
    {
        let Ok(session) = Session::start(alloc, document, options.depth) else {
            return None;
        };
        Some(Editor {
            session,
            strict: options.strict,
            lines: 0,
            any_refused: false,
        })
    }

    pub(crate) fn document(&self) -> &Document
        ensures present { (history : History) → StandsFor self.now.session history
            → document_of result.now ≡ standing_document history }
        ensures valid { IsDocument (document_of result.now) }
    {
        self.session.document()
    }

    pub(crate) fn any_refused(&self) -> bool
        ensures { result ≡ self.now.any_refused }
    {
        self.any_refused
    }

    /// Reads the script to its end, or to the first byte that is too many. Each line is carried out
    /// and replied to when it is complete, before the next read.
    pub(crate) fn carry_out_script<R: Source, W: Sink>(
        &mut self,
        alloc: Global,
        script: &mut R,
        replies: &mut W,
        retries: &mut Retries,
    ) -> Result<(), ScriptStop>
        requires { self.old.lines ≡ 0 }
        ensures { (strict : Bool) (document : PlainDocument) (depth : ℕ) → IsAt self.old strict (at_first document depth)
            → CarriesOutScript strict (at_first document depth)
            (moment_at W.Sink (source_at R.Source script.old) replies.old retries.old)
            (moment_at W.Sink (source_at R.Source script.new) replies.new retries.new)
            self.new result }
    {
        let mut cutter = LineCutter::new(alloc)?;
        self.carry_out_pieces(alloc, &mut cutter, script, replies, retries)?;
        let Some(rest) = cutter.rest() else {
            return Ok(());
        };
        self.carry_out(alloc, rest, replies, retries)?;
        Ok(())
    }

    /// Reads the script piece by piece, and carries out the lines that are complete.
    fn carry_out_pieces<R: Source, W: Sink>(
        &mut self,
        alloc: Global,
        cutter: &mut LineCutter,
        script: &mut R,
        replies: &mut W,
        retries: &mut Retries,
    ) -> Result<(), ScriptStop>
        requires lines { self.old.lines ≡ 0 }
        requires cutter { cutter.old ≡ nothing_held }
        ensures lines { self.new.lines ≤ MAX_SCRIPT }
        ensures pieces { (strict : Bool) (document : PlainDocument) (depth : ℕ) → IsAt self.old strict (at_first document depth)
            → CarriesOutPieces strict (at_first document depth)
            (moment_at W.Sink (source_at R.Source script.old) replies.old retries.old)
            (moment_at W.Sink (source_at R.Source script.new) replies.new retries.new)
            self.new cutter.new result }
    {
        let mut piece = [0; PIECE];
        let mut room = MAX_SCRIPT;
        loop {
            let size = PIECE.min(room + 1);
            let Ok(count) = read_some(script, &mut piece[..size], retries) else {
                return Err(ScriptStop::Script);
            };
            if count == 0 {
                return Ok(());
            }
            self.carry_out_lines(alloc, cutter, &piece[..count.min(room)], replies, retries)?;
            if count > room {
                return Err(ScriptStop::Script);
            }
            room -= count;
        }
    }

    /// Cuts the bytes into lines, and carries out those that are complete.
    fn carry_out_lines<W: Sink>(
        &mut self,
        alloc: Global,
        cutter: &mut LineCutter,
        bytes: &[u8],
        replies: &mut W,
        retries: &mut Retries,
    ) -> Result<(), LineStop>
        requires { self.old.lines + length bytes.now < 2 ^ 64 }
        ensures lines { self.new.lines ≤ self.old.lines + length bytes.now }
        ensures cutter { (before : List ℕ) → WasGiven cutter.old before
            → result ≡ Ok tt → WasGiven cutter.new (before ++ bytes.now) }
        ensures comes { (strict : Bool) (start : Progress) (before : List ℕ) (first : Moment) (script : Seen)
            → WasGiven cutter.old before
            → ComesTo strict start (whole_lines before) first (moment_at W.Sink script replies.old retries.old) self.old
            → CarriesOutLines strict start (whole_lines (before ++ bytes.now)) first (moment_at W.Sink script replies.new retries.new) self.new result }
    {
        for byte in bytes {
            cutter.push(*byte);
            let Some(line) = cutter.line() else {
                continue;
            };
            self.carry_out(alloc, line, replies, retries)?;
        }
        Ok(())
    }

    /// Carries out a line and replies to it.
    fn carry_out<W: Sink>(
        &mut self,
        alloc: Global,
        cut: Cut<'_>,
        replies: &mut W,
        retries: &mut Retries,
    ) -> Result<(), LineStop>
        requires { self.old.lines + 1 < 2 ^ 64 }
        ensures lines { self.new.lines ≡ self.old.lines + 1 }
        ensures answers { (script : Seen) (strict : Bool) (p : Progress) (line : List ℕ) → IsAt self.old strict p → is_over strict p ≡ false
            → cut_of line ≡ cut_seen cut.entry
            → AnswersLine (moment_at W.Sink script replies.old retries.old) (moment_at W.Sink script replies.new retries.new) self.new strict line p result }
    {
        self.lines += 1;
        let Some(answer) = carry_out_line(alloc, &mut self.session, cut) else {
            return Ok(());
        };
        let refused = answer.is_err();
        if reply(replies, self.lines, printed_in(&answer), retries).is_err() {
            return Err(LineStop::Replies);
        }
        self.settle(refused)
    }

    /// Notes that a line was refused, if it was: that ends a strict run.
    fn settle(&mut self, refused: bool) -> Result<(), LineStop>
        ensures editor { self.new ≡ settled refused self.old }
        ensures ends { result ≡ ends_line self.old.strict refused }
    {
        if !refused {
            return Ok(());
        }
        self.any_refused = true;
        if self.strict {
            Err(LineStop::Strict)
        } else {
            Ok(())
        }
    }
}

/// The answer to a line that asks for something: the lines that it prints, or why it is refused.
fn carry_out_line(
    alloc: Global,
    session: &mut Session,
    cut: Cut<'_>,
) -> Option<Result<Items<u8>, Refused>>
    ensures { (p : Progress) (line : List ℕ) → StandsFor session.old p.history → cut_of line ≡ cut_seen cut.entry
        → CarriesOut session.new line result p }
{
    match parse_cut(alloc, cut) {
        Ok(None) => None,
        Ok(Some(request)) => {
            let answer = carry_out_request(alloc, session, &request);
            drop(request);
            Some(answer)
        }
        Err(error) => Some(Err(Refused::Parse(error))),
    }
}

/// The lines that an answer prints, or why there is none.
fn printed_in(answer: &Result<Items<u8>, Refused>) -> Result<&[u8], Refused>
    ensures { answer_seen result ≡ printed_in answer.now }
{
    match answer {
        Ok(lines) => Ok(lines.as_slice()),
        Err(reason) => Err(*reason),
    }
}
