// The order program on texts. Pieces of the input go in as they were read, and what is to be printed comes out: the definition is
// specs/Printed, and that no cut of the input plays a part is proofs/Whole.
#![tactic(auto)]

pub mod digits;
pub mod entry;
mod table;
pub mod turns;

ghost use Rattle.std.specs.Prelude.{◌≡◌, ◌+◌, ◌*◌, ◌≤◌, length, take, replicate};
ghost use Rattle.desk.specs.Record.{Good};
ghost use Rattle.order_run.specs.Turns.{is_over, Says};
ghost use Rattle.order_run.specs.Feed.{st_of, st_in, st, after, line_ended, finished, end_said, end_kept, Starts, Feeds};

use desk::Desk;
use desk::change::Change;
use digits::{LONGEST, Part};
use std::marker::Model;
use table::DigitTable;
use turns::{Phase, all_read, frame_read, is_quiet, last_number, print_answer};
use wire::refusal::Refusal;

// The most characters of a piece, and the room for what a piece prints: a request for each of them, 33 characters, and the longest line
// that ends a run, 00 and 4,096 bytes.
pub const PIECE: usize = 4096;

pub const ROOM: usize = 143363;

// What a run works in: the line so far, the data buffer, and the room for what is printed.
#[derive(Drop)]
pub struct Buffers {
    pub frame: [u8; LONGEST],
    pub data: [u8; 4096],
    pub out: [u8; ROOM],
}

impl Buffers {
    pub fn new() -> Buffers
        ensures { result.«data» ≡ replicate 4096 0 }
    {
        Buffers {
            frame: [0; LONGEST],
            data: [0; 4096],
            out: [0; ROOM],
        }
    }
}

// Where a run stands between two pieces: the desk, the phase, and the line that has no end yet.
#[derive(Clone, Copy, Debug, PartialEq, Eq)]
pub struct Run {
    pub desk: Desk,
    pub phase: Phase,
    pub part: Part,
}

impl Model for Run {
    ghost use Rattle.desk.specs.Record.{Good};
    ghost use Rattle.order_run.specs.Run.{Run};

    ghost Value = { Run };

    ghost view = { λ r. record { desk = r.desk; phase = r.phase; part = r.part } };

    ghost invariant = { λ r. Good r.desk };

    ghost inverse = { λ r. record { desk = r.desk; phase = r.phase; part = r.part } };
}

// The run after a piece, and how many characters to print stand at the front of the output.
#[derive(Clone, Copy, Debug, PartialEq, Eq)]
pub struct Fed {
    pub run: Run,
    pub printed: usize,
}

fn line_end(
    desk: Desk,
    phase: Phase,
    part: Part,
    frame: &[u8],
    data: &mut [u8],
) -> Option<Result<Change, Refusal>>
    requires good { Good desk }
    requires frame_len { (length frame.now ≡ 1486) × (length «data».old ≡ 4096) }
    ensures { Says desk (end_said (st desk phase part frame.now «data».old)) result «data».new × («data».new ≡ end_kept (st desk phase part frame.now «data».old)) }
{
    match part.half {
        None => frame_read(desk, phase, &frame[..part.count], data),
        Some(_) => None,
    }
}

// "nested loops over lines and digits, left by a label at the first bad character"
fn feed_piece(
    run: Run,
    table: &DigitTable,
    text: &[u8],
    frame: &mut [u8],
    data: &mut [u8],
    out: &mut [u8],
) -> Fed
    requires text_len_bound { length text.now ≤ 4096 }
    requires frame_len { (length frame.old ≡ 1486) × (length «data».old ≡ 4096) × (length out.old ≡ 143363) }
    ensures { Feeds (after (st_of run frame.old «data».old) text.now) (length text.now) result frame.new «data».new out.old out.new }
{
    let mut desk = run.desk;
    let mut phase = run.phase;
    let mut part = run.part;
    let mut printed = 0;
    // the place is counted by hand: the two loops and the label are asked for, and whole_bytes moves it on by as many digits as it took
    let mut i = 0;
    'lines: while i < text.len() {
        if phase.is_over() {
            break 'lines;
        }
        let whole = part.whole_bytes(table, text, i, frame);
        part = part.further(whole);
        i += 2 * whole;
        while i < text.len() {
            let c = text[i];
            if c == b'\n' {
                break;
            }
            if part.is_bad(c) {
                let bad = last_number(desk, 0xff, out, printed);
                desk = bad.desk;
                phase = bad.phase;
                part = Part::nothing();
                printed = bad.end;
                break 'lines;
            }
            part = part.put(c, frame);
            i += 1;
            let more = part.whole_bytes(table, text, i, frame);
            part = part.further(more);
            i += 2 * more;
        }
        if i < text.len() {
            let change = line_end(desk, phase, part, frame, data);
            match change {
                Some(decided) => match decided {
                    Ok(change) if is_quiet(change) => {
                        let at = change.at;
                        let slot = change.slot;
                        desk.line[at] = slot;
                        desk.waiting = change.waiting;
                        desk.counter = change.counter;
                        phase = Phase::Reply;
                    }
                    _ => {
                        let turn = print_answer(desk, decided, data, out, printed);
                        desk = turn.desk;
                        phase = turn.phase;
                        printed = turn.end;
                    }
                },
                None => {
                    let turn = last_number(desk, 0xff, out, printed);
                    desk = turn.desk;
                    phase = turn.phase;
                    printed = turn.end;
                }
            }
            part = Part::nothing();
            i += 1;
        }
    }
    let run = Run { desk, phase, part };
    Fed { run, printed }
}

impl Run {
    pub fn start() -> Run
        ensures { Starts result }
    {
        let desk = Desk::fresh();
        let part = Part::nothing();
        Run {
            desk,
            phase: Phase::Entry,
            part,
        }
    }

    pub fn is_over(self) -> bool
        ensures { result ≡ is_over self.phase }
    {
        self.phase.is_over()
    }

    // A piece of the input, its first 4,096 characters.
    pub fn feed(self, text: &[u8], buffers: &mut Buffers) -> Fed
        ensures { Feeds (after (st_in self buffers.old) (take 4096 text.now)) 4096 result buffers.new.frame buffers.new.«data» buffers.old.out buffers.new.out }
    {
        let end = PIECE.min(text.len());
        feed_piece(
            self,
            &DigitTable::new(),
            &text[..end],
            &mut buffers.frame,
            &mut buffers.data,
            &mut buffers.out,
        )
    }

    // A last line that lacks its line end gets it.
    fn last_line(self, buffers: &mut Buffers) -> Fed
        ensures { Feeds (line_ended (st_in self buffers.old)) 4096 result buffers.new.frame buffers.new.«data» buffers.old.out buffers.new.out }
    {
        if self.part.is_begun() {
            return self.feed(b"\n", buffers);
        }
        Fed {
            run: self,
            printed: 0,
        }
    }

    // The end of the input.
    pub fn finish(self, buffers: &mut Buffers) -> Fed
        ensures { Feeds (finished (st_in self buffers.old)) 4096 result buffers.new.frame buffers.new.«data» buffers.old.out buffers.new.out }
    {
        let fed = self.last_line(buffers);
        let ended = fed.run;
        if ended.phase.is_over() {
            return fed;
        }
        let turn = all_read(ended.desk, ended.phase, &mut buffers.out, fed.printed);
        let desk = turn.desk;
        let part = Part::nothing();
        let run = Run {
            desk,
            phase: turn.phase,
            part,
        };
        Fed {
            run,
            printed: turn.end,
        }
    }
}
