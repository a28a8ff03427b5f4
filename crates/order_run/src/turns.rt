// What a line does at the desk's seat 0, and what it prints into `out` from a place on.
ghost use Rattle.std.specs.Prelude.{◌≡◌, [], ◌∷◌, ◌+◌, ◌*◌, ◌≤◌, min, length, take, IfOk};
ghost use Rattle.wire.specs.Store.{laid};
ghost use Rattle.desk.specs.Record.{Good};
ghost use Rattle.desk.specs.Change.{Within, called_by};
ghost use Rattle.order_run.specs.Turns.{is_entry, is_over, line_text, last, request as Turns·request, after_form, after_receive, after_frame, kept_frame, after_all, quiet, Says, Enters, Turned};
ghost use Rattle.order_run.specs.Entry.{form_of};

use crate::entry::form_of;
use desk::Desk;
use desk::change::Change;
use wire::refusal::Refusal;

// The seat of document 01's order program.
const SEAT: u8 = 0;

// A run awaits its entry, awaits a reply, or is over.
#[derive(Clone, Copy, Debug, PartialEq, Eq)]
pub enum Phase {
    Entry,
    Reply,
    Over,
}

impl Phase {
    pub fn is_over(self) -> bool
        ensures { result ≡ is_over self }
    {
        matches!(self, Phase::Over)
    }

    pub(crate) fn is_entry(self) -> bool
        ensures { result ≡ is_entry self }
    {
        matches!(self, Phase::Entry)
    }
}

// The run after a line: its desk, its phase, and the place behind what it has printed.
#[derive(Clone, Copy, Debug, PartialEq, Eq)]
pub struct Turn {
    pub desk: Desk,
    pub phase: Phase,
    pub end: usize,
}

// No struct holds the output and the place: Turned would name both fields, before and after, where it says now what is laid from `at` to `end`.
#[tactic(auto, using(crate::proofs::Printing::line_room))]
fn print_line(bytes: &[u8], out: &mut [u8], at: usize) -> usize
    requires { at + 2 * length bytes.now + 1 ≤ length out.old }
    ensures { (result ≡ at + length (line_text bytes.now)) × (out.new ≡ laid out.old at (line_text bytes.now)) }
{
    let end = order_text::encode_at(bytes, out, at);
    out[end] = b'\n';
    end + 1
}

pub(crate) fn last_number(desk: Desk, number: u8, out: &mut [u8], at: usize) -> Turn
    requires good { Good desk }
    requires at_in_bounds { at + 3 ≤ length out.old }
    ensures { Turned (last desk (number ∷ [])) at result out.old out.new }
{
    let one = [number; 1];
    let end = print_line(&one, out, at);
    Turn {
        desk,
        phase: Phase::Over,
        end,
    }
}

fn request(desk: Desk, out: &mut [u8], at: usize) -> Turn
    requires good { Good desk }
    requires at_in_bounds { at + 33 ≤ length out.old }
    ensures { Turned (Turns·request desk) at result out.old out.new }
{
    let mut frame = [0u8; 16];
    let sent = desk.send(SEAT, &mut frame);
    let after = sent.desk;
    let end = print_line(&frame, out, at);
    Turn {
        desk: after,
        phase: Phase::Reply,
        end,
    }
}

// "after 00, the stored payload"
#[tactic(auto, using(crate::proofs::Spoken::done_room))]
fn done(desk: Desk, payload: u32, data: &[u8], out: &mut [u8], at: usize) -> Turn
    requires good { Good desk }
    requires data_in_bounds { at + 2 * length «data».now + 3 ≤ length out.old }
    ensures { Turned (last desk (0 ∷ take payload «data».now)) at result out.old out.new }
{
    let stored = (payload as usize).min(data.len());
    let none = [0u8; 1];
    let from = order_text::encode_at(&none, out, at);
    let end = print_line(&data[..stored], out, from);
    Turn {
        desk,
        phase: Phase::Over,
        end,
    }
}

// A bad entry changes nothing.
fn entry_read(desk: Desk, frame: &[u8]) -> Option<Result<Change, Refusal>>
    requires { Good desk }
    ensures { Enters desk (after_form desk (form_of frame.now)) result }
{
    let order = form_of(frame)?;
    match desk.entering(SEAT, order) {
        Ok(change) => Some(Ok(change)),
        Err(_) => None,
    }
}

// What a line changes at the desk, if it is not bad: small, where the desk handed on by value would be copied at each hand.
pub(crate) fn frame_read(
    desk: Desk,
    phase: Phase,
    frame: &[u8],
    data: &mut [u8],
) -> Option<Result<Change, Refusal>>
    requires { Good desk }
    ensures { Says desk (after_frame phase desk frame.now «data».old) result «data».new × («data».new ≡ kept_frame phase desk frame.now «data».old) }
{
    if phase.is_entry() {
        return entry_read(desk, frame);
    }
    Some(desk.receiving(SEAT, frame, data))
}

// Whether the reply is still due, and one slot of the desk all that changes: the desk is then changed where it lies.
pub(crate) fn is_quiet(change: Change) -> bool
    ensures { result ≡ quiet change }
{
    let answer = change.answer;
    if answer.number == 0x02 {
        return change.last <= change.first;
    }
    false
}

#[tactic(auto, using(crate::proofs::Spoken::answers))]
pub(crate) fn print_answer(
    desk: Desk,
    decided: Result<Change, Refusal>,
    data: &[u8],
    out: &mut [u8],
    at: usize,
) -> Turn
    requires good { Good (called_by decided desk).desk }
    requires within { IfOk decided Within }
    requires at_in_bounds { at + 33 ≤ length out.old }
    requires data_in_bounds { at + 2 * length «data».now + 3 ≤ length out.old }
    ensures { Turned (after_receive (called_by decided desk) «data».now) at result out.old out.new }
{
    let called = desk.called(decided);
    let answer = called.answer;
    let after = called.desk;
    // The answer is the record that C is given, so that its number stays one.
    if answer.number == 0x00 {
        return done(after, answer.length, data, out, at);
    }
    if answer.number == 0x01 {
        return request(after, out, at);
    }
    if answer.number == 0x02 {
        return Turn {
            desk: after,
            phase: Phase::Reply,
            end: at,
        };
    }
    last_number(after, answer.number, out, at)
}

// "Replies used up: it leaves, 03."
#[tactic(auto, using(crate::proofs::Spoken::turned_as, crate::proofs::Spoken::all_none, crate::proofs::Spoken::all_left))]
pub(crate) fn all_read(desk: Desk, phase: Phase, out: &mut [u8], at: usize) -> Turn
    requires good { Good desk }
    requires at_in_bounds { at + 3 ≤ length out.old }
    ensures { Turned (after_all phase desk) at result out.old out.new }
{
    if phase.is_entry() {
        return last_number(desk, 0xff, out, at);
    }
    let left = desk.leave(SEAT);
    let answer = left.answer;
    let after = left.desk;
    last_number(after, answer.number, out, at)
}
