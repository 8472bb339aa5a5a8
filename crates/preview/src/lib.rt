// S-6, 'Many previews from one look': whether the line would be high after each total of cycles in a lent slice, all
// from one deadline; for a board, and for a parked one.
#![tactic(auto)]

ghost use Rattle.std.specs.Prelude.{◌≡◌, true, cond, map, ◌++◌, ◌≤◌, length, drop, ltb};
ghost use Rattle.wide.specs.Bits.{flag_of};
ghost use Rattle.board.specs.Board.{BoardFits, sound};
ghost use Rattle.board.specs.Answers.{answered, no_members};
ghost use Rattle.board.specs.Refusals.{refusal_code};
ghost use Rattle.parking.specs.Parking.{buffer_short};
ghost use Rattle.preview.specs.CodeReach.{high_from, reaches};
ghost use Rattle.preview.specs.Preview.{
  clock_in_realtime,
  preview_refusal,
  preview_of,
  previewed_buffer,
  parked_preview_refusal,
  parked_preview_buffer,
};

use board::Board;
use board::calls::Answered;
use board::refusal::Refusal;
use channel::Cycles;

// Refuses a preview of a sound board: by whether the clock runs from host time, the number of totals and the bytes of
// the buffer.
fn check_preview(from_host: bool, count: usize, room: usize) -> Result<(), Refusal>
    ensures { refusal_code result
        ≡ cond from_host clock_in_realtime (cond (ltb room count) buffer_short 0) }
{
    if from_host {
        return Err(Refusal::ClockInRealtime);
    }
    if room < count {
        return Err(Refusal::BufferShort);
    }
    Ok(())
}

// From how many further cycles on the line is high, by the line and the advance that a skip would make. A skip makes no
// advance where the line is high, or where no total can reach the deadline.
fn high_from(board: Board) -> Option<Cycles>
    requires { sound board ≡ true }
    ensures { result ≡ high_from board }
{
    if board.line() {
        return Some(Cycles(0));
    }
    board.skip_length().unwrap_or(None)
}

// Whether a total is at least `from`.
fn reaches(from: Option<Cycles>, total: Cycles) -> bool
    ensures { result ≡ reaches from total.0 }
{
    from.is_some_and(|from| from.0 <= total.0)
}

// Writes one byte for each total: 1 where the total is at least `from`, else 0.
fn put_reached(from: Option<Cycles>, totals: &[u64], high: &mut [u8])
    requires { length totals.now ≤ length high.old }
    ensures { high.new ≡ map (λ total. flag_of (reaches from total)) totals.now
        ++ drop (length totals.now) high.old }
{
    for (i, total) in totals.iter().enumerate() {
        high[i] = u8::from(reaches(from, Cycles(*total)));
    }
}

// Writes whether the line of a sound board would be high after each total of further cycles: one byte each, 1 or 0, at
// the start of a lent buffer. The advance that a skip would make is computed once, and each total is compared with it.
fn put_preview(board: Board, totals: &[u64], high: &mut [u8]) -> Result<(), Refusal>
    requires { (sound board ≡ true) × BoardFits board }
    ensures value { refusal_code result ≡ preview_refusal board (length totals.now) (length high.old) }
    ensures high_after { high.new ≡ previewed_buffer board totals.now high.old }
{
    check_preview(
        clock::from_host(board.clock.control),
        totals.len(),
        high.len(),
    )?;
    put_reached(high_from(board), totals, high);
    Ok(())
}

// The same of every board, as a direct call.
pub fn preview(board: Board, totals: &[u64], high: &mut [u8]) -> Answered<()>
    ensures value { answered no_members result
        ≡ preview_of board (length totals.now) (length high.old) }
    ensures high_after { high.new ≡ previewed_buffer board totals.now high.old }
{
    if let Err(refusal) = board.check_sound() {
        return board.refused(refusal);
    }
    let answer = put_preview(board, totals, high);
    Answered { board, answer }
}

// The same of a parked board. The refusal is that of the image, 12 or 1, or else that of the preview.
pub fn preview_parked(image: &[u8], totals: &[u64], high: &mut [u8]) -> Result<(), Refusal>
    ensures value { refusal_code result
        ≡ parked_preview_refusal image.now (length totals.now) (length high.old) }
    ensures high_after { high.new
        ≡ parked_preview_buffer image.now totals.now high.old }
{
    // no `?`, which would copy the board
    match parking::unpark(image) {
        Ok(parked) => put_preview(parked.board, totals, high),
        Err(refusal) => Err(refusal),
    }
}
