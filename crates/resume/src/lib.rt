// A run over a parked board: the board is read from its image, a list is run over it, and the board that the run left
// is written back into the same bytes, in the form that they had.
#![tactic(auto)]

ghost use Rattle.std.specs.Prelude.{◌≡◌, length};
ghost use Rattle.resume.specs.Resumed.{resumed_said, resumed_of, image_after, answers_after};

use board::refusal::Refusal;
use list::Counts;

// How far the run came, and how it ended, or why the image is refused.
#[derive(Clone, Copy)]
pub struct Resumed {
    pub done: Counts,
    pub end: Result<(), Refusal>,
}

pub fn run(image: &mut [u8], list: &[u8], answers: &mut [u8]) -> Resumed
    ensures value { resumed_said result ≡ resumed_of image.old list.now (length answers.old) }
    ensures image_after { image.new
        ≡ image_after image.old list.now (length answers.old) }
    ensures answers_after { answers.new
        ≡ answers_after image.old list.now answers.old }
{
    let parked = match parking::unpark(image) {
        Ok(parked) => parked,
        Err(refusal) => {
            return Resumed {
                done: Counts::default(),
                end: Err(refusal),
            };
        }
    };
    let board = parked.board;
    let r = list::run(board, list, answers);
    let left = r.board;
    let form = parked.form;
    // this is accepted: a run leaves a sound board at its rate, and the image is as long as its form
    let _ = parking::park(form, left, image);
    Resumed {
        done: r.done,
        end: r.end,
    }
}
