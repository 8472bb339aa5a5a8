// The call list: a run takes the calls of a list in order, writes an answer for each into a buffer, and stops at the
// first refusal. A call is decoded once; a refusal is found before its call is carried out, so an accepted call changes
// the board in place.
#![tactic(auto)]

ghost use Rattle.std.specs.Prelude.{◌≡◌, length};
ghost use Rattle.list.specs.Run.{outcome_of, run_of, over};

use board::Board;
use board::refusal::Refusal;
use channel::ChannelNumber;
use format::tag::Tag;
use registers::writes::WritePart;
use registers::{reads, writes};
use regmap::writes::acknowledged;
use steps::Step;

// How far a run came: the calls done, the list bytes that they used, and the answer bytes.
#[derive(Clone, Copy, PartialEq, Eq, Default)]
pub struct Counts {
    pub calls: usize,
    pub used: usize,
    pub written: usize,
}

// The board after a run, how far the run came, and how it ended: at the end of its list, or at a refusal.
#[derive(Clone, Copy)]
pub struct Outcome {
    pub board: Board,
    pub done: Counts,
    pub end: Result<(), Refusal>,
}

// Runs a list of calls over a board, and writes their answers into a buffer.
pub fn run(board: Board, list: &[u8], answers: &mut [u8]) -> Outcome
    ensures value { outcome_of result ≡ (run_of board list.now (length answers.old)).outcome }
    ensures answers_after { answers.new
        ≡ over (run_of board list.now (length answers.old)).answers answers.old }
{
    if !board.sound() {
        return Outcome {
            board,
            done: Counts::default(),
            end: Err(Refusal::NotSound),
        };
    }
    let mut b = board;
    let mut done = Counts::default();
    while done.used < list.len() {
        let rest = &list[done.used..];
        let step = match steps::step_of(b, rest, answers.len() - done.written) {
            Ok(step) => step,
            Err(refusal) => {
                return Outcome {
                    board: b,
                    done,
                    end: Err(refusal),
                };
            }
        };
        let mut size = 0;
        let mut moved = false; // whether the line can have moved
        match step {
            Step::Read(offset) => {
                let i = reads::channel_index(offset);
                let timer = b.timers[i]; // here, because an array that is passed on to be indexed is copied
                if reads::plain(offset) {
                    let r = reads::plain_at(b, timer, offset);
                    b.clock.alarm.pending = r.pending;
                    b.clock.alarm.armed = r.armed;
                    moved = r.rose;
                    steps::put_byte(answers, done.written, r.byte);
                } else {
                    let r = reads::reading_at(b, timer, offset);
                    let after = r.latches;
                    b.latches = after;
                    b.clock.alarm.pending = r.plain.pending;
                    b.clock.alarm.armed = r.plain.armed;
                    moved = r.plain.rose;
                    steps::put_byte(answers, done.written, r.plain.byte);
                }
                done.used += Tag::Read.call_length();
                size = Tag::Read.record_length();
            }
            Step::Write(byte, offset) => {
                match writes::part_at(offset) {
                    WritePart::Nothing => {}
                    WritePart::Enable => {
                        b.timer_enable = writes::enable_after(b.timer_enable, offset, byte);
                    }
                    WritePart::Acknowledge => {
                        let cleared = acknowledged(b.timers, byte);
                        b.timers = cleared;
                        moved = true;
                    }
                    WritePart::Clock => {
                        let after = writes::clock_after(b.clock, offset, byte);
                        b.clock = after;
                        moved = true;
                    }
                    WritePart::Channel => {
                        let i = reads::channel_index(offset);
                        let after = writes::timer_after(b.timers[i], offset, byte);
                        b.timers[i] = after;
                        moved = writes::at_control(offset);
                    }
                }
                format::put_header_of(answers, done.written, Tag::Write);
                done.used += Tag::Write.call_length();
                size = Tag::Write.record_length();
            }
            Step::Pass(passing, cycles) => {
                steps::put_begun(answers, done.written, passing, cycles);
                let enable = b.timer_enable;
                for i in 0..Board::CHANNELS {
                    let timer = b.timers[i];
                    let selected = ChannelNumber(i as u8).selected(enable);
                    if timer.runs(selected) {
                        let after = timer.advance_cycles(selected, cycles);
                        let timer_after = after.timer;
                        b.timers[i] = timer_after;
                        let points = after.matches;
                        steps::put_points(answers, done.written, passing, i, points);
                    }
                }
                let later = b.clock.advance(cycles);
                b.clock = later;
                let line = b.line();
                let set = b.controller_wired(line);
                b.controller = set;
                steps::put_passed(answers, done.written, passing, line);
                let tag = passing.tag();
                done.used += tag.call_length();
                size = tag.record_length();
            }
            _ => {
                let c = steps::changes_of(b, step);
                b.clock.host.seconds = c.host.seconds;
                b.clock.host.nanoseconds = c.host.nanoseconds;
                let after = c.controller;
                b.controller = after;
                steps::put_other(answers, done.written, step, c);
                let tag = steps::tag_of(step);
                done.used += tag.call_length();
                size = tag.record_length();
            }
        }
        if moved {
            let set = b.controller_wired(b.line()); // source 3
            b.controller = set;
        }
        done.calls += 1;
        done.written += size;
    }
    Outcome {
        board: b,
        done,
        end: Ok(()),
    }
}
