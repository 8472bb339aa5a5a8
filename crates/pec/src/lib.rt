// The C interface of the proved board: functions on numbers and slices, which programs in other languages link. A slice
// is a pointer and a length; a number that is lent is written before the call returns.
#![tactic(auto)]

ghost use Rattle.std.specs.Prelude.{◌≡◌, ◌+◌, ◌*◌, ◌≤◌, length};
ghost use Rattle.std.specs.Result.{result_unwrap_or};
ghost use Rattle.board.specs.Fields.{fresh_board};
ghost use Rattle.board.specs.Refusals.{refusal_code};
ghost use Rattle.list.specs.Run.{outcome_of};
ghost use Rattle.image.specs.declared.Form.TheVariants.{Old, New};
ghost use Rattle.parking.specs.Parking.{default_form, writing_of, buffer_after, reading_refusal};
ghost use Rattle.parking.specs.Moves.{move_of, moved_buffer};
ghost use Rattle.resume.specs.Resumed.{resumed_of, image_after, answers_after};
ghost use Rattle.preview.specs.Preview.{parked_preview_refusal, parked_preview_buffer};
ghost use Rattle.listing.specs.Listing.{listing_of, with_text};
ghost use Rattle.pec.specs.Repeats.{started_on, started, ran, repeats, ran_at, repeats_at};
ghost use Rattle.pec.specs.Parked.{fresh_writing, fresh_buffer};

use board::Board;
use board::refusal::{self, Refusal};
use image::Form;
use list::{Counts, Outcome};

mod irqc;

// Runs a list over a board, and then another list a number of times, each time over the board that the run before it
// left. Each run writes its answers from the buffer's first byte.
fn repeated(board: Board, first: &[u8], list: &[u8], times: u64, answers: &mut [u8]) -> Outcome
    ensures value { outcome_of result ≡ (repeats times list.now
        (ran first.now (started_on board answers.old))).outcome }
    ensures answers_after { answers.new ≡ (repeats times list.now
        (ran first.now (started_on board answers.old))).buffer }
{
    let mut r = list::run(board, first, answers);
    for _ in 0..times {
        let board = r.board;
        r = list::run(board, list, answers);
    }
    r
}

// The same over a fresh board at a rate. A rate that no sound board has is refused, and nothing is run.
fn repeated_at(rate: u32, first: &[u8], list: &[u8], times: u64, answers: &mut [u8]) -> Outcome
    ensures value { outcome_of result
        ≡ (repeats_at rate first.now list.now times answers.old).outcome }
    ensures answers_after { answers.new
        ≡ (repeats_at rate first.now list.now times answers.old).buffer }
{
    let fresh = Board::fresh_at(rate);
    let board = fresh.board;
    match fresh.answer {
        Ok(()) => repeated(board, first, list, times, answers),
        Err(refusal) => Outcome {
            board,
            done: Counts::default(),
            end: Err(refusal),
        },
    }
}

// Gives a run's counts to the caller, and the number of its refusal as the result, 0 for none.
fn give(
    done: Counts,
    end: Result<(), Refusal>,
    calls: &mut usize,
    used: &mut usize,
    written: &mut usize,
) -> u8
    ensures value { result ≡ refusal_code end }
    ensures calls_after { calls.new ≡ done.calls }
    ensures used_after { used.new ≡ done.used }
    ensures written_after { written.new ≡ done.written }
{
    *calls = done.calls;
    *used = done.used;
    *written = done.written;
    refusal::code(end)
}

// Gives the bytes of an image to the caller, 0 where it is refused, and the number of the refusal as the result, 0 for
// none.
fn give_written(image: Result<usize, Refusal>, written: &mut usize) -> u8
    ensures value { result ≡ refusal_code image }
    ensures written_after { written.new ≡ result_unwrap_or image 0 }
{
    *written = image.unwrap_or(0);
    refusal::code(image)
}

// Runs a list over a fresh board into a lent buffer. Gives the calls done, the list bytes that they used, the answer
// bytes, and as its result the refusal, 0 for none.
#[unsafe(no_mangle)]
pub extern "C" fn pec_run(
    list: &[u8],
    answers: &mut [u8],
    calls: &mut usize,
    used: &mut usize,
    written: &mut usize,
) -> u8
    ensures value { result ≡ (ran list.now (started answers.old)).outcome.refusal }
    ensures answers_after { answers.new ≡ (ran list.now (started answers.old)).buffer }
    ensures calls_after { calls.new ≡ (ran list.now (started answers.old)).outcome.calls }
    ensures used_after { used.new ≡ (ran list.now (started answers.old)).outcome.used }
    ensures written_after { written.new
        ≡ (ran list.now (started answers.old)).outcome.written }
{
    let run = list::run(Board::fresh(), list, answers);
    give(run.done, run.end, calls, used, written)
}

// Runs a list over a fresh board, and then another list a number of times, each time over the board that the run before
// it left. The results are those of the last run.
#[unsafe(no_mangle)]
pub extern "C" fn pec_run_repeated(
    first: &[u8],
    list: &[u8],
    times: u64,
    answers: &mut [u8],
    calls: &mut usize,
    used: &mut usize,
    written: &mut usize,
) -> u8
    ensures value { result ≡ (repeats times list.now
        (ran first.now (started answers.old))).outcome.refusal }
    ensures answers_after { answers.new ≡ (repeats times list.now
        (ran first.now (started answers.old))).buffer }
    ensures calls_after { calls.new ≡ (repeats times list.now
        (ran first.now (started answers.old))).outcome.calls }
    ensures used_after { used.new ≡ (repeats times list.now
        (ran first.now (started answers.old))).outcome.used }
    ensures written_after { written.new ≡ (repeats times list.now
        (ran first.now (started answers.old))).outcome.written }
{
    let run = repeated(Board::fresh(), first, list, times, answers);
    give(run.done, run.end, calls, used, written)
}

// Runs a list over a fresh board at a rate into a lent buffer, as `pec_run` does over one at 48,000,000. A rate other
// than 1,000,000, 12,000,000 and 48,000,000 is refused with 15 before all else: the buffer stays, and the counts are 0.
#[unsafe(no_mangle)]
pub extern "C" fn pec_run_at(
    rate: u32,
    list: &[u8],
    answers: &mut [u8],
    calls: &mut usize,
    used: &mut usize,
    written: &mut usize,
) -> u8
    ensures value { result ≡ (ran_at rate list.now answers.old).outcome.refusal }
    ensures answers_after { answers.new ≡ (ran_at rate list.now answers.old).buffer }
    ensures calls_after { calls.new ≡ (ran_at rate list.now answers.old).outcome.calls }
    ensures used_after { used.new ≡ (ran_at rate list.now answers.old).outcome.used }
    ensures written_after { written.new ≡ (ran_at rate list.now answers.old).outcome.written }
{
    let run = repeated_at(rate, list, list, 0, answers);
    give(run.done, run.end, calls, used, written)
}

// Runs a list over a fresh board at a rate, and then another list a number of times, as `pec_run_repeated` does over
// one at 48,000,000. Another rate is refused as by `pec_run_at`.
#[unsafe(no_mangle)]
pub extern "C" fn pec_run_repeated_at(
    rate: u32,
    first: &[u8],
    list: &[u8],
    times: u64,
    answers: &mut [u8],
    calls: &mut usize,
    used: &mut usize,
    written: &mut usize,
) -> u8
    ensures value { result ≡ (repeats_at rate first.now list.now times answers.old
        ).outcome.refusal }
    ensures answers_after { answers.new
        ≡ (repeats_at rate first.now list.now times answers.old).buffer }
    ensures calls_after { calls.new
        ≡ (repeats_at rate first.now list.now times answers.old).outcome.calls }
    ensures used_after { used.new
        ≡ (repeats_at rate first.now list.now times answers.old).outcome.used }
    ensures written_after { written.new
        ≡ (repeats_at rate first.now list.now times answers.old).outcome.written }
{
    let run = repeated_at(rate, first, list, times, answers);
    give(run.done, run.end, calls, used, written)
}

// Writes the listing of a run's answers and of its end, which `listrun` prints, at the start of a lent buffer, as much
// of it as fits. Its result is the listing's length, at most twice that of the answers and 67.
#[unsafe(no_mangle)]
pub extern "C" fn pec_listing(
    answers: &[u8],
    calls: usize,
    refusal: u8,
    used: usize,
    text: &mut [u8],
) -> usize
    ensures value { result ≡ length (listing_of answers.now calls refusal used) }
    ensures text_after { text.new
        ≡ with_text (listing_of answers.now calls refusal used) text.old }
    ensures upper_bound { result ≤ 2 * length answers.now + 67 }
{
    listing::listing(answers, calls, refusal, used, text)
}

// Parks a fresh board: writes its image, in the new form, at the start of a lent buffer. Gives the bytes written, and
// as its result the refusal: 11 for a buffer that is too short, 0 for none.
#[unsafe(no_mangle)]
pub extern "C" fn pec_fresh(image: &mut [u8], written: &mut usize) -> u8
    ensures value { result ≡ (writing_of default_form fresh_board (length image.old)).refusal }
    ensures image_after { image.new ≡ buffer_after default_form fresh_board image.old }
    ensures written_after { written.new
        ≡ (writing_of default_form fresh_board (length image.old)).written }
{
    give_written(parking::park(Form::New, Board::fresh(), image), written)
}

// The same for a fresh board at a rate. A rate that no sound board has is refused with 15, ahead of 11.
#[unsafe(no_mangle)]
pub extern "C" fn pec_fresh_at(rate: u32, image: &mut [u8], written: &mut usize) -> u8
    ensures value { result ≡ (fresh_writing rate (length image.old)).refusal }
    ensures image_after { image.new ≡ fresh_buffer rate image.old }
    ensures written_after { written.new ≡ (fresh_writing rate (length image.old)).written }
{
    let fresh = Board::fresh_at(rate);
    let board = fresh.board;
    match fresh.answer {
        Ok(()) => give_written(parking::park(Form::New, board, image), written),
        Err(refusal) => give_written(Err(refusal), written),
    }
}

// Moves an image of the old form to the new, with 48,000,000, at the start of a lent buffer. Gives the bytes written, 0
// where it is refused, and as its result the refusal: 12, where the image is malformed or already in the new form; 1,
// where its board is not sound; 11 for a buffer that is too short; 0 for none.
#[unsafe(no_mangle)]
pub extern "C" fn pec_move_forward(image: &[u8], moved: &mut [u8], written: &mut usize) -> u8
    ensures value { result ≡ (move_of New image.now (length moved.old)).refusal }
    ensures moved_after { moved.new ≡ moved_buffer New image.now moved.old }
    ensures written_after { written.new ≡ (move_of New image.now (length moved.old)).written }
{
    give_written(parking::moves::move_image(Form::New, image, moved), written)
}

// Moves an image of the new form back to the old in the same manner. Between 1 and 11 comes 16, where its board has
// another rate than 48,000,000.
#[unsafe(no_mangle)]
pub extern "C" fn pec_move_back(image: &[u8], moved: &mut [u8], written: &mut usize) -> u8
    ensures value { result ≡ (move_of Old image.now (length moved.old)).refusal }
    ensures moved_after { moved.new ≡ moved_buffer Old image.now moved.old }
    ensures written_after { written.new ≡ (move_of Old image.now (length moved.old)).written }
{
    give_written(parking::moves::move_image(Form::Old, image, moved), written)
}

// The refusal of reading an image, of either form: 12, 1, or 0 for none.
#[unsafe(no_mangle)]
pub extern "C" fn pec_image_refusal(image: &[u8]) -> u8
    ensures { result ≡ reading_refusal image.now }
{
    refusal::code(parking::unpark(image))
}

// Runs a list over a parked board, and writes the board that the run left back into the image, in the form that it has.
// A refused image, by 12 or 1, changes nothing and gives counts 0; otherwise the result is the run's refusal.
#[unsafe(no_mangle)]
pub extern "C" fn pec_run_parked(
    image: &mut [u8],
    list: &[u8],
    answers: &mut [u8],
    calls: &mut usize,
    used: &mut usize,
    written: &mut usize,
) -> u8
    ensures value { result
        ≡ (resumed_of image.old list.now (length answers.old)).refusal }
    ensures image_after { image.new
        ≡ image_after image.old list.now (length answers.old) }
    ensures answers_after { answers.new
        ≡ answers_after image.old list.now answers.old }
    ensures calls_after { calls.new
        ≡ (resumed_of image.old list.now (length answers.old)).calls }
    ensures used_after { used.new
        ≡ (resumed_of image.old list.now (length answers.old)).used }
    ensures written_after { written.new
        ≡ (resumed_of image.old list.now (length answers.old)).written }
{
    let run = resume::run(image, list, answers);
    give(run.done, run.end, calls, used, written)
}

// Whether a parked board's line would be high after each of some totals of further cycles: one byte for each, 1 or 0,
// at the start of a lent buffer. The board does not change. The result is the refusal: 12 or 1 for the image; 14 where
// the clock is enabled in realtime; 11 for a buffer that is shorter than the totals; 0 for none. A refused call writes
// nothing.
#[unsafe(no_mangle)]
pub extern "C" fn pec_preview(image: &[u8], totals: &[u64], high: &mut [u8]) -> u8
    ensures value { result ≡ parked_preview_refusal image.now (length totals.now)
        (length high.old) }
    ensures high_after { high.new
        ≡ parked_preview_buffer image.now totals.now high.old }
{
    refusal::code(preview::preview_parked(image, totals, high))
}
