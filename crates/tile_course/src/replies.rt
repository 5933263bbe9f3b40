//! What is written in reply to a line.

ghost use Rattle.std.specs.Prelude.{◌++◌, codes, decimal};
ghost use Rattle.std.specs.List.{flat_map};
ghost use Rattle.tile_device.specs.Device.{trouble_of};
ghost use Rattle.tile_device.specs.Seen.{Sends, sink_at};
ghost use Rattle.tile_course.specs.Replies.{answer_seen, after_name, refused_front, refused_reply, reply_to};

use crate::refused::Refused;
use itoa::Buffer;
use mvt_history_steps::HistoryError;
use mvt_meaning::Refusal;
use tile_device::{Retries, Sink, Trouble, write_all};

/// Replies to the line of this number, with the lines that it printed or why it was refused, and
/// passes the reply on.
pub fn reply<W: Sink>(
    replies: &mut W,
    line: u64,
    answer: Result<&[u8], Refused>,
    retries: &mut Retries,
) -> Result<(), Trouble>
    ensures { Sends (sink_at W.Sink replies.old) (sink_at W.Sink replies.new)
        retries.old retries.new (reply_to line (answer_seen answer.entry)) (trouble_of result) }
{
    write_reply(replies, line, answer, retries)?;
    replies.flush()
}

fn write_reply<W: Sink>(
    replies: &mut W,
    line: u64,
    answer: Result<&[u8], Refused>,
    retries: &mut Retries,
) -> Result<(), Trouble>
    ensures { Sends (sink_at W.Sink replies.old) (sink_at W.Sink replies.new)
        retries.old retries.new (reply_to line (answer_seen answer.entry)) (trouble_of result) }
{
    match answer {
        Ok(lines) => write_pieces(replies, &[lines, b"ok\n"], retries),
        Err(reason) => write_refusal(replies, line, reason, retries),
    }
}

/// Replies to the refused line of this number. It is given no allocator.
fn write_refusal<W: Sink>(
    replies: &mut W,
    line: u64,
    reason: Refused,
    retries: &mut Retries,
) -> Result<(), Trouble>
    ensures { Sends (sink_at W.Sink replies.old) (sink_at W.Sink replies.new)
        retries.old retries.new (refused_reply line reason) (trouble_of result) }
{
    write_reason(replies, line, reason, retries)?;
    write_end(replies, reason, retries)
}

/// Writes which line was refused, and why.
fn write_reason<W: Sink>(
    replies: &mut W,
    line: u64,
    reason: Refused,
    retries: &mut Retries,
) -> Result<(), Trouble>
    ensures { Sends (sink_at W.Sink replies.old) (sink_at W.Sink replies.new)
        retries.old retries.new (refused_front line reason) (trouble_of result) }
{
    let mut line_digits = Buffer::new();
    let mut number_digits = Buffer::new();
    let line = line_digits.format(line);
    let number = number_digits.format(reason.number());
    write_pieces(
        replies,
        &[
            b"line ",
            line.as_bytes(),
            b" refused ",
            number.as_bytes(),
            b" ",
            reason.name().as_bytes(),
        ],
        retries,
    )
}

/// Writes what follows the name of the refusal, and the end of the line.
fn write_end<W: Sink>(
    replies: &mut W,
    reason: Refused,
    retries: &mut Retries,
) -> Result<(), Trouble>
    ensures { Sends (sink_at W.Sink replies.old) (sink_at W.Sink replies.new)
        retries.old retries.new (after_name reason ++ codes "\n") (trouble_of result) }
{
    match reason {
        Refused::Edit(Refusal::BadTags { layer, feature })
        | Refused::Edit(Refusal::RepeatedKey { layer, feature })
        | Refused::Edit(Refusal::BadGeometry { layer, feature }) => {
            write_place(replies, layer, feature, retries)
        }
        Refused::History(HistoryError::Stopped { taken }) => write_taken(replies, taken, retries),
        _ => write_all(replies, b"\n", retries),
    }
}

/// Writes which feature it is, and the end of the line.
fn write_place<W: Sink>(
    replies: &mut W,
    layer: usize,
    feature: usize,
    retries: &mut Retries,
) -> Result<(), Trouble>
    ensures { Sends (sink_at W.Sink replies.old) (sink_at W.Sink replies.new)
        retries.old retries.new (codes " layer " ++ decimal layer ++ codes " feature " ++ decimal feature ++ codes "\n") (trouble_of result) }
{
    let mut layer_digits = Buffer::new();
    let mut feature_digits = Buffer::new();
    let layer = layer_digits.format(layer);
    let feature = feature_digits.format(feature);
    write_pieces(
        replies,
        &[
            b" layer ",
            layer.as_bytes(),
            b" feature ",
            feature.as_bytes(),
            b"\n",
        ],
        retries,
    )
}

/// Writes how far a request came that was stopped, and the end of the line.
fn write_taken<W: Sink>(replies: &mut W, taken: usize, retries: &mut Retries) -> Result<(), Trouble>
    ensures { Sends (sink_at W.Sink replies.old) (sink_at W.Sink replies.new)
        retries.old retries.new (codes " taken " ++ decimal taken ++ codes "\n") (trouble_of result) }
{
    let mut digits = Buffer::new();
    let taken = digits.format(taken);
    write_pieces(replies, &[b" taken ", taken.as_bytes(), b"\n"], retries)
}

/// Writes the pieces one after the other.
fn write_pieces<W: Sink>(
    sink: &mut W,
    pieces: &[&[u8]],
    retries: &mut Retries,
) -> Result<(), Trouble>
    ensures { Sends (sink_at W.Sink sink.old) (sink_at W.Sink sink.new)
        retries.old retries.new (flat_map (λ piece. piece.now) pieces.now) (trouble_of result) }
{
    for piece in pieces {
        write_all(sink, piece, retries)?;
    }
    Ok(())
}
