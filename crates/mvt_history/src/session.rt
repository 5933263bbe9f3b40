//! The session: its document, the changes for undo and redo, the marks and the open step; each
//! request.

ghost use Rattle.std.specs.Prelude.{◌≡◌, [], ◌∷◌, ◌<◌, ◌≤◌, ◌⊎◌, if◌then◌else◌, is_ok, is_some, None, Some, Ok, Err, OnOk, OnErr, IfOk, IfErr, IsSomeAnd, length, option_map, slice_get};
ghost use Rattle.mvt_history_steps.specs.declared.error.HistoryError.TheVariants.{GroupOpen, NoMemory};
ghost use Rattle.mvt_document.specs.Stands.{document_of};
ghost use Rattle.mvt_document.specs.Opens.{IsDocument};
ghost use Rattle.mvt_meaning.specs.CommandStands.{command_of};
ghost use Rattle.mvt_change.specs.ChangeStands.{change_of};
ghost use Rattle.mvt_change.specs.Changes.{Fits, go, turn};
ghost use Rattle.mvt_history_steps.specs.declared.TheConstants.{MAX_DEPTH};
ghost use Rattle.mvt_history_steps.specs.Held.{from_last};
ghost use Rattle.mvt_history_steps.specs.Marks.{bound, point_of, unbound};
ghost use Rattle.mvt_history_steps.specs.History.{History, begun, closed, marked, opened, redone, standing_document, undone, unmarked};
ghost use Rattle.mvt_history_steps.specs.Moves.{gone, moved_along, walk_in};
ghost use Rattle.mvt_history_steps.specs.Standing.{IsReady};
ghost use Rattle.mvt_history_steps.specs.declared.steps.Direction.TheVariants.{Undo, Redo};
ghost use Rattle.mvt_history_steps.specs.Session.{Answers, AnswersBack, AnswersCancel, AnswersCommand, AnswersWithMemory, IsStop, NotStarted, SeesMark, StandsFor};
ghost use Rattle.mvt_history.specs.Kept.{CarriesOut, IsCancelled, IsEnded, IsKept, IsMoved, with_names, with_open};
ghost use Rattle.mvt_history.specs.Refusing.{ensured_ahead, has_room};

use circular_buffer::HeapCircularBuffer;
use mvt_change::{Change, flip, join};
use mvt_document::Document;
use mvt_edit::{Command, Refusal, prepare};
use mvt_history_steps::{
    Direction, HistoryError, MAX_MARKS, Mark, StartError, bind, find_point, keep, take_back,
    unbind, walk, way,
};
use mvt_wire::size;
use std::alloc::{AllocError, Global};
use std::marker::Model;

/// A document that commands edit. A step is one command, or several that are closed together; undo
/// and redo move by steps. For each step that undo or redo reaches, the session keeps the change
/// that leads there, and never a second document.
#[derive(Drop)]
pub struct Session {
    alloc: Global,
    document: Document,
    undo: HeapCircularBuffer<Change>,
    redo: HeapCircularBuffer<Change>,
    depth: u32,
    marks: Vec<Mark>,
    pending: Option<Vec<Change>>,
}

impl Model for Session {
    ghost use Rattle.std.specs.Coded.{codes};
    ghost use Rattle.mvt_change.specs.Codes.{coded_item};
    ghost use Rattle.mvt_history_steps.specs.Standing.{Standing};

    ghost Value = { Standing };

    ghost coded = { Prim.hlevel (codes, coded_item) };

    ghost use Rattle.mvt_history.specs.Inside.{IsHeldIn, seen_in};

    ghost view = { seen_in };

    ghost invariant = { IsHeldIn };
}

impl Session {
    /// A session of a document that no command has edited, in which undo goes back at most `depth`
    /// steps. An error hands the document back: it is too large for a file, or there is no memory.
    pub fn start(alloc: Global, document: Document, depth: u32) -> Result<Session, StartError>
        requires valid { IsDocument (document_of document) }
        requires depth { (1 ≤ depth) × (depth ≤ MAX_DEPTH) }
        ensures ok { IfOk result (λ session. StandsFor session (begun (document_of document) depth)) }
        ensures err { IfErr result (NotStarted document) }
    {
        if size(&document).is_none() {
            return Err(StartError::TooLarge(document));
        }
        let Ok(undo) = HeapCircularBuffer::with_capacity(alloc, depth as usize) else {
            return Err(StartError::NoMemory(document));
        };
        let Ok(redo) = HeapCircularBuffer::with_capacity(alloc, depth as usize) else {
            return Err(StartError::NoMemory(document));
        };
        Ok(Session {
            alloc,
            document,
            undo,
            redo,
            depth,
            marks: Vec::new(alloc),
            pending: None,
        })
    }

    /// The document as it stands now.
    pub fn document(&self) -> &Document
        ensures standing { document_of result.now ≡ self.now.document }
        ensures present { (history : History) → StandsFor self.now history → document_of result.now ≡ standing_document history }
        ensures valid { IsDocument (document_of result.now) }
    {
        &self.document
    }

    /// How many steps undo can go back.
    pub fn undo_len(&self) -> usize
        ensures { result ≡ length self.now.undo }
    {
        self.undo.len()
    }

    /// How many steps redo can go on.
    pub fn redo_len(&self) -> usize
        ensures { result ≡ length self.now.redo }
    {
        self.redo.len()
    }

    /// How many steps undo goes back at most.
    pub fn depth(&self) -> u32
        ensures { result ≡ self.now.depth }
    {
        self.depth
    }

    /// How many names are marked.
    pub fn mark_count(&self) -> usize
        ensures { result ≡ length self.now.marks }
    {
        self.marks.len()
    }

    /// The mark whose name is at this place in the order of their bytes, and its point minus the
    /// present one: below 0 if undo leads there.
    pub fn mark_at(&self, index: usize) -> Option<(&[u8], i64)>
        ensures { SeesMark (length self.now.undo) result (slice_get self.now.marks index) }
    {
        let mark = self.marks.get(index)?;
        Some((
            mark.name.as_slice(),
            i64::from(mark.point) - self.undo.len() as i64,
        ))
    }

    /// How many commands the open step has, if one is open.
    pub fn open_len(&self) -> Option<usize>
        ensures { result ≡ option_map length self.now.pending }
    {
        let pending = self.pending.as_ref()?;
        Some(pending.len())
    }

    /// Refuses if a step is open.
    fn ensure_closed(&self) -> Result<(), HistoryError>
        ensures { result ≡ (if is_some self.now.pending then Err GroupOpen else Ok tt) }
    {
        if self.pending.is_some() {
            return Err(HistoryError::GroupOpen);
        }
        Ok(())
    }

    /// Carries a command out. If a step is open, the command joins it; otherwise it is a step, and
    /// what was undone is forgotten. It is refused as `prepare` refuses it.
    pub fn command(&mut self, command: &Command) -> Result<(), Refusal>
        ensures answer { (history : History) → StandsFor self.old history → AnswersCommand (command_of command.now) history result self.new }
        ensures kept { OnOk result (CarriesOut (command_of command.now) self.old self.new) }
        ensures err { OnErr result (self.new ≡ self.old) }
    {
        let change = prepare(self.alloc, &self.document, command)?;
        if let Some(pending) = &mut self.pending {
            flip_onto(self.alloc, &mut self.document, pending, change)?;
        } else {
            self.carry_out(change)?;
        }
        Ok(())
    }

    /// Carries a change out as a step of its own, where none is open; what was undone is forgotten.
    fn carry_out(&mut self, change: Change) -> Result<(), AllocError>
        requires closed { self.old.pending ≡ None }
        requires fits { Fits (change_of change) self.old.document }
        ensures document { OnOk result (self.new.document ≡ go (change_of change) self.old.document) }
        ensures kept { OnOk result (IsKept self.old self.new (turn (change_of change) self.old.document)) }
        ensures err { OnErr result (self.new ≡ self.old) }
    {
        let change = flipped(self.alloc, &mut self.document, change)?;
        keep(&mut self.undo, &mut self.redo, &mut self.marks, change);
        Ok(())
    }

    /// Takes the last step back. `GroupOpen` while a step is open, else `NothingToUndo` if undo
    /// goes back no further.
    pub fn undo(&mut self) -> Result<(), HistoryError>
        ensures answer { (history : History) → StandsFor self.old history → AnswersWithMemory (undone history) history result self.new }
        ensures kept { OnOk result (self.new ≡ moved_along Undo 1 self.old) }
        ensures err { OnErr result (self.new ≡ self.old) }
    {
        self.step(Direction::Undo)
    }

    /// Makes the step that was taken back last stand again. `GroupOpen` while a step is open, else
    /// `NothingToRedo` if none was.
    pub fn redo(&mut self) -> Result<(), HistoryError>
        ensures answer { (history : History) → StandsFor self.old history → AnswersWithMemory (redone history) history result self.new }
        ensures kept { OnOk result (self.new ≡ moved_along Redo 1 self.old) }
        ensures err { OnErr result (self.new ≡ self.old) }
    {
        self.step(Direction::Redo)
    }

    /// Makes the next step in a direction. `GroupOpen` while a step is open, else the refusal that
    /// there is none.
    fn step(&mut self, direction: Direction) -> Result<(), HistoryError>
        ensures answer { (history : History) → StandsFor self.old history → AnswersWithMemory (gone direction history) history result self.new }
        ensures kept { OnOk result (self.new ≡ moved_along direction 1 self.old) }
        ensures err { OnErr result (self.new ≡ self.old) }
    {
        self.ensure_closed()?;
        self.ensure_ahead(direction)?;
        self.walk(direction, 1).or(Err(HistoryError::NoMemory))
    }

    /// Refuses if there is no step in a direction.
    fn ensure_ahead(&self, direction: Direction) -> Result<(), HistoryError>
        ensures ahead { result ≡ ensured_ahead direction self.now }

        // Each change that is kept fits where it is carried out.
        ensures ready { IsReady self.now }
    {
        match direction {
            Direction::Undo if self.undo.is_empty() => Err(HistoryError::NothingToUndo),
            Direction::Redo if self.redo.is_empty() => Err(HistoryError::NothingToRedo),
            _ => Ok(()),
        }
    }

    /// Makes `count` steps in a direction. An `Err` says how many were made; these stand.
    fn walk(&mut self, direction: Direction, count: usize) -> Result<(), usize>
        requires closed { self.old.pending ≡ None }
        requires enough { count ≤ length (walk_in direction self.old).ahead }
        ensures ok { OnOk result (self.new ≡ moved_along direction count self.old) }
        ensures err { IfErr result (λ taken. (taken < count) × (self.new ≡ moved_along direction taken self.old)) }
    {
        match direction {
            Direction::Undo => walk(
                self.alloc,
                &mut self.document,
                &mut self.undo,
                &mut self.redo,
                count,
            ),
            Direction::Redo => walk(
                self.alloc,
                &mut self.document,
                &mut self.redo,
                &mut self.undo,
                count,
            ),
        }
    }

    /// Makes the name mark the present point, and no other. `GroupOpen` while a step is open, else
    /// `TooManyMarks` for a new name if there are `MAX_MARKS`.
    pub fn mark(&mut self, name: &[u8]) -> Result<(), HistoryError>
        ensures answer { (history : History) → StandsFor self.old history → AnswersWithMemory (marked name.now history) history result self.new }
        ensures kept { OnOk result (self.new ≡ with_names (bound name.now (length self.old.undo) self.old.marks) self.old) }
        ensures err { OnErr result (self.new ≡ self.old) }
        ensures no_memory { IfErr result (λ error. error ≡ NoMemory → point_of name.now self.old.marks ≡ None) }
    {
        self.ensure_closed()?;
        if !self.has_room(name) {
            return Err(HistoryError::TooManyMarks);
        }
        bind(self.alloc, &mut self.marks, name, self.undo.len() as u32)?;
        Ok(())
    }

    /// Whether there is room to mark the name: it is marked, or there are fewer than `MAX_MARKS`.
    fn has_room(&self, name: &[u8]) -> bool
        ensures { result ≡ has_room name.now self.now.marks }
    {
        find_point(self.marks.as_slice(), name).is_some() || self.marks.len() < MAX_MARKS
    }

    /// Makes the name mark nothing. `GroupOpen` while a step is open, else `NoMark` if it marks
    /// nothing.
    pub fn unmark(&mut self, name: &[u8]) -> Result<(), HistoryError>
        ensures answer { (history : History) → StandsFor self.old history → Answers (unmarked name.now history) history result self.new }
        ensures kept { OnOk result (self.new ≡ with_names (unbound name.now self.old.marks) self.old) }
        ensures err { OnErr result (self.new ≡ self.old) }
    {
        self.ensure_closed()?;
        unbind(&mut self.marks, name).ok_or(HistoryError::NoMark)
    }

    /// Goes to the marked point, by as many undos or redos as that takes. `GroupOpen` while a step
    /// is open, else `NoMark` if the name marks nothing. If there is no memory for one of them,
    /// those before it stand, and `Stopped` says how many they are.
    pub fn back(&mut self, name: &[u8]) -> Result<(), HistoryError>
        ensures answer { (history : History) → StandsFor self.old history → AnswersBack name.now history result self.new }
        ensures kept { IsMoved self.old self.new }
        ensures err { IfErr result (λ error. (self.new ≡ self.old) ⊎ IsStop error) }
    {
        self.ensure_closed()?;
        let Some(point) = find_point(self.marks.as_slice(), name) else {
            return Err(HistoryError::NoMark);
        };
        let (direction, count) = way(self.undo.len(), point as usize);
        self.walk(direction, count)
            .map_err(|taken| HistoryError::Stopped { taken })
    }

    /// Opens a step: the commands from now on are one. `GroupOpen` if one is open.
    pub fn begin(&mut self) -> Result<(), HistoryError>
        ensures answer { (history : History) → StandsFor self.old history → Answers (opened history) history result self.new }
        ensures kept { OnOk result (self.new ≡ with_open self.old.document (Some []) self.old) }
        ensures err { OnErr result (self.new ≡ self.old) }
    {
        self.ensure_closed()?;
        self.pending = Some(Vec::new(self.alloc));
        Ok(())
    }

    /// Ends the open step, or refuses with `NoGroup`. A step without a command leaves everything as
    /// it was before it. If there is no memory, it stays open.
    pub fn end(&mut self) -> Result<(), HistoryError>
        ensures answer { (history : History) → StandsFor self.old history → AnswersWithMemory (closed history) history result self.new }
        ensures kept { OnOk result (IsEnded self.old.pending self.old self.new) }
        ensures err { OnErr result (self.new ≡ self.old) }
        ensures no_memory { IfErr result (λ error. error ≡ NoMemory → IsSomeAnd self.old.pending (λ changes. 2 ≤ length changes)) }
    {
        let Some(pending) = &mut self.pending else {
            return Err(HistoryError::NoGroup);
        };
        if pending.is_empty() {
            self.pending = None;
            return Ok(());
        }
        let change = join(self.alloc, pending)?;
        self.pending = None;
        keep(&mut self.undo, &mut self.redo, &mut self.marks, change);
        Ok(())
    }

    /// Takes the commands of the open step back, and closes it, or refuses with `NoGroup`. If there
    /// is no memory for one of them, the step stays open with that one and those before it, and
    /// `Stopped` says how many were taken back.
    pub fn cancel(&mut self) -> Result<(), HistoryError>
        ensures answer { (history : History) → StandsFor self.old history → AnswersCancel history result self.new }
        ensures kept { IsCancelled result self.old self.new }
        ensures err { IfErr result (λ error. (self.new ≡ self.old) ⊎ IsStop error) }
    {
        let Some(pending) = &mut self.pending else {
            return Err(HistoryError::NoGroup);
        };
        if let Err(taken) = take_back(self.alloc, &mut self.document, pending) {
            return Err(HistoryError::Stopped { taken });
        }
        self.pending = None;
        Ok(())
    }
}

/// Carries a change out, and appends what leads back to a list.
fn flip_onto(
    alloc: Global,
    document: &mut Document,
    changes: &mut Vec<Change>,
    change: Change,
) -> Result<(), AllocError>
    requires { Fits (change_of change) (document_of document.old) }
    ensures document { document_of document.new ≡ (if is_ok result
        then go (change_of change) (document_of document.old)
        else document_of document.old) }
    ensures ok { OnOk result (from_last changes.new.items ≡ turn (change_of change) (document_of document.old) ∷ from_last changes.old.items) }
    ensures err { OnErr result (changes.new.items ≡ changes.old.items) }
{
    changes.reserve(1)?;
    changes.push_reserved(flipped(alloc, document, change)?);
    Ok(())
}

/// Carries a change out, and returns what leads back.
fn flipped(alloc: Global, document: &mut Document, mut change: Change) -> Result<Change, AllocError>
    requires { Fits (change_of change) (document_of document.old) }
    ensures document { document_of document.new ≡ (if is_ok result
        then go (change_of change) (document_of document.old)
        else document_of document.old) }
    ensures back { IfOk result (λ back. change_of back ≡ turn (change_of change) (document_of document.old)) }
{
    flip(alloc, document, &mut change)?;
    Ok(change)
}
