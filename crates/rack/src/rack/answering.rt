// Answering a frame.
ghost use Rattle.std.specs.Prelude.{◌≡◌, length, IfOk};
ghost use Rattle.line.specs.Calls.{starting_with};
ghost use Rattle.promises.specs.Outcomes.{outcome_of};
ghost use Rattle.promises.specs.Promised.{Promises};
ghost use Rattle.promises.specs.Runs.{CallAnswered};
ghost use Rattle.promises.specs.Stored.{values_in};
ghost use Rattle.promises.specs.Wires.{call_over};
ghost use Rattle.rack.specs.Racks.{frame_asks, setup_of, Serves};
ghost use Rattle.rack.specs.Replies.{marked_reply, Framed};

use crate::frames::{read_frame, send, under, unreadable};
use crate::message::DataMessage;
use crate::rack::Rack;
use crate::replies::{Answer, Served};
use line::framing::{Framing, MAX_FRAME};
use line::message::{MAX_DATA, Message};
use promises::outcome::{AnswerRefusal, Answered};
use store::Store;

impl<S: Store> Rack<S> {
    // Serves a frame: the answer, if there is one, is under its mark.
    fn serve_frame<F: Framing>(&mut self, framing: &F, frame: &[u8]) -> Served<(F::Mark, Answer)>
        ensures served { Serves S.Store.held self.old (frame_asks (F.Framing.rule framing.now) (setup_of self.old) frame.now) (marked_reply result) self.new }
        ensures framed { Framed (F.Framing.rule framing.now) ((F.Framing.rule framing.now).reads frame.now) result }
    {
        let mut space = [0; MAX_DATA];
        match read_frame(framing, frame, &mut space) {
            // One match in the other: a pattern that takes both apart is not covered by the borrow checker.
            Ok((mark, message)) => match message {
                Message::Data { node, bytes } => {
                    let served = self.serve(DataMessage { node, bytes });
                    under(framing, mark, node, served)
                }
                Message::Error { .. } => Served {
                    answer: None,
                    fault: None,
                },
            },
            Err(flaw) => unreadable(framing, flaw),
        }
    }

    /// Answers a frame in its framing: the answer stands at the start of `buffer`, and bytes past it stay. Tells how many bytes the
    /// answer has, 0 where there is none, and the fault if there is one. Refused by 1 if `buffer` has fewer than 138 bytes; then
    /// nothing changes. A status or an error is an ordinary answer.
    ///
    /// `answered` says what one call gives and leaves, and `promises` what holds of every list of such calls since the rack was
    /// new: in whatever order calls that do not meet come, in whichever framings, over any store, they get the same answers and
    /// leave the same values; every row holds its last accepted value or its default, and every feed is within its limit; and a
    /// write is refused for a feed exactly when a limit would be passed.
    pub fn answer<F: Framing>(
        &mut self,
        framing: &F,
        frame: &[u8],
        buffer: &mut [u8],
    ) -> Result<Answered, AnswerRefusal>
        ensures answered { CallAnswered (setup_of self.old) (call_over (F.Framing.rule framing.now) frame.now buffer.old) (values_in (S.Store.held self.old.store)) (outcome_of result buffer.new) (values_in (S.Store.held self.new.store)) }
        ensures len { IfOk result (λ a. a.len ≡ length (outcome_of result buffer.new).answer) }
        ensures after { buffer.new ≡ starting_with (outcome_of result buffer.new).answer buffer.old }
        ensures same { (self.new.node ≡ self.old.node) × (self.new.table ≡ self.old.table) }
        ensures promises { Promises (setup_of self.old) }
    {
        if buffer.len() < MAX_FRAME {
            return Err(AnswerRefusal::ShortBuffer);
        }
        let served = self.serve_frame(framing, frame);
        let len = send(framing, served.answer, buffer);
        Ok(Answered {
            len,
            fault: served.fault,
        })
    }
}
