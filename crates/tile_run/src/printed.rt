//! The lines of the marks, of the history and of the size.

ghost use Rattle.std.specs.Prelude.{◌≡◌, ◌<◌, ◌++◌, IfOk, IfErr, IsErr, OnOk, length};
ghost use Rattle.mvt_document.specs.Stands.{document_of};
ghost use Rattle.mvt_history_steps.specs.History.{History};
ghost use Rattle.mvt_history_steps.specs.Session.{StandsFor};
ghost use Rattle.mvt_meaning.specs.declared.refusal.Refusal.TheVariants.{NoMemory};
ghost use Rattle.tile_course.specs.Answering.{history_lines, mark_lines, offset_line, open_line, reach_line, size_line};

use mvt_document::{Document, Items};
use mvt_history::Session;
use mvt_meaning::Refusal;
use mvt_wire::size;
use std::alloc::{AllocError, Global};
use tile_text::{put_decimal, put_signed_decimal, put_text};

/// The line of each mark. Where there is none, no memory is taken.
pub(crate) fn mark_lines(alloc: Global, session: &Session) -> Result<Items<u8>, Refusal>
    ensures lines { (history : History) → StandsFor session.now history →
        IfOk result (λ lines. lines.items ≡ mark_lines history) }
    ensures out_of_memory { IfErr result (λ refusal. refusal ≡ NoMemory) }
    ensures some_marked { IsErr result → 0 < length session.now.marks }
{
    let mut lines = Vec::new(alloc);
    for index in 0..session.mark_count() {
        let Some((name, offset)) = session.mark_at(index) else {
            break;
        };
        put_mark(&mut lines, name, offset)?;
    }
    Ok(Items::from_vec(lines))
}

/// Adds the line of a mark.
fn put_mark(lines: &mut Vec<u8>, name: &[u8], offset: i64) -> Result<(), AllocError>
    ensures { OnOk result (lines.new.items ≡ lines.old.items ++ offset_line name.now offset) }
{
    lines.extend_from_slice(b"mark ")?;
    put_text(lines, name)?;
    lines.extend_from_slice(b" ")?;
    put_signed_decimal(lines, offset)?;
    lines.push(b'\n')?;
    Ok(())
}

/// How far undo and redo reach, and how many commands the open step has.
pub(crate) fn history_lines(alloc: Global, session: &Session) -> Result<Items<u8>, Refusal>
    ensures lines { (history : History) → StandsFor session.now history →
        IfOk result (λ lines. lines.items ≡ history_lines history) }
    ensures out_of_memory { IfErr result (λ refusal. refusal ≡ NoMemory) }
{
    let mut lines = reach_line(
        alloc,
        session.undo_len(),
        session.redo_len(),
        session.depth(),
    )?;
    put_open(&mut lines, session.open_len())?;
    Ok(Items::from_vec(lines))
}

fn reach_line(alloc: Global, undo: usize, redo: usize, depth: u32) -> Result<Vec<u8>, AllocError>
    ensures { IfOk result (λ line. line.items ≡ reach_line undo redo depth) }
{
    let line = format!(in alloc; "undo {undo} redo {redo} depth {depth}\n")?;
    Ok(line.into_bytes())
}

/// Adds how many commands the open step has, where one is open.
fn put_open(lines: &mut Vec<u8>, commands: Option<usize>) -> Result<(), AllocError>
    ensures { OnOk result (lines.new.items ≡ lines.old.items ++ open_line commands) }
{
    let Some(commands) = commands else {
        return Ok(());
    };
    lines.extend_from_slice(b"open ")?;
    put_decimal(lines, commands as u64)?;
    lines.push(b'\n')?;
    Ok(())
}

/// The line that says how many bytes the document has. Where there are more than a file can hold,
/// which no tile of a run has, they are not counted, and the answer is that memory ran out.
pub(crate) fn size_line(alloc: Global, document: &Document) -> Result<Items<u8>, Refusal>
    ensures line { IfOk result (λ line. line.items ≡ size_line (document_of document.now)) }
    ensures out_of_memory { IfErr result (λ refusal. refusal ≡ NoMemory) }
{
    let Some(size) = size(document) else {
        return Err(Refusal::NoMemory);
    };
    let line = format!(in alloc; "size {size}\n")?;
    Ok(Items::from_vec(line.into_bytes()))
}
