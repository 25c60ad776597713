// Frames that are read, and frames that answer.
ghost use Rattle.std.specs.Prelude.{◌≡◌, ℕ, ◌≤◌, List, length, is_some, IfSome};
ghost use Rattle.line.specs.Calls.{starting_with};
ghost use Rattle.line.specs.Messages.{Framable, data_msg};
ghost use Rattle.rack.specs.Replies.{frame_of, marked_msg, marked_reply, read_in, reply_of, unreadable_reply, Framed};

use crate::replies::{Answer, Served};
use chain::fault::ChainFault;
use line::fault::LineFault;
use line::framing::Framing;
use line::message::{MAX_DATA, Message};
use line::refusal::Flaw;
use promises::outcome::ErrorReply;

/// The mark and the message of a frame. The data bytes stand in `space`.
pub(crate) fn read_frame<'a, F: Framing>(
    framing: &F,
    frame: &[u8],
    space: &'a mut [u8; MAX_DATA],
) -> Result<(F::Mark, Message<'a>), Flaw>
    ensures { read_in result ≡ (F.Framing.rule framing.now).reads frame.now }
{
    let (mark, unpacked) = framing.decode(frame, space)?;
    Ok((mark, unpacked.message(space)))
}

/// What is served to a frame that cannot be read: error 03 where its framing says that it is answered.
pub(crate) fn unreadable<F: Framing>(framing: &F, flaw: Flaw) -> Served<(F::Mark, Answer)>
    ensures told { marked_reply result ≡ unreadable_reply flaw (is_some (F.Framing.rule framing.now).unreadable_mark) }
    ensures framed { Framed (F.Framing.rule framing.now) (Err flaw) result }
{
    Served {
        answer: framing
            .unreadable_mark()
            .map(|mark| (mark, Answer::Error(ErrorReply::Unreadable))),
        fault: Some(ChainFault::from(LineFault::Unreadable(flaw)).into()),
    }
}

/// Puts what is served to a data message under its mark: the message's own, and for an error the mark that the framing tells from
/// that and the message's node.
pub(crate) fn under<F: Framing>(
    framing: &F,
    mark: F::Mark,
    node: u8,
    served: Served<Answer>,
) -> Served<(F::Mark, Answer)>
    ensures told { marked_reply result ≡ reply_of served }
    ensures framed { (bytes : List ℕ) → Framed (F.Framing.rule framing.now) (Ok (mark, data_msg node bytes)) result }
{
    let mark = match served.answer {
        Some(Answer::Error(_)) => framing.error_mark(mark, node),
        _ => mark,
    };
    Served {
        answer: served.answer.map(|answer| (mark, answer)),
        fault: served.fault,
    }
}

/// Writes the frame of an answer to the start of the buffer, and tells how many bytes it has. Bytes past it stay.
pub(crate) fn send<F: Framing>(
    framing: &F,
    answer: Option<(F::Mark, Answer)>,
    buffer: &mut [u8],
) -> usize
    requires room { 138 ≤ length buffer.old }
    requires framable { IfSome (marked_msg answer) Framable }
    ensures len { result ≡ length (frame_of (F.Framing.rule framing.now) answer) }
    ensures after { buffer.new ≡ starting_with (frame_of (F.Framing.rule framing.now) answer) buffer.old }
{
    let Some((mark, answer)) = answer else {
        return 0;
    };
    framing.write(mark, answer.message(), buffer).unwrap()
}
