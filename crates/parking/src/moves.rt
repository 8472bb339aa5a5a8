// An image moved from one form to the other: S-1's, which has no rate, to S-8's with 48,000,000, and back.
ghost use Rattle.std.specs.Prelude.{◌≡◌, length};
ghost use Rattle.parking.specs.Answers.{move_said};
ghost use Rattle.parking.specs.Moves.{other_form, move_of, moved_buffer};

use crate::{park, read_in};
use board::refusal::Refusal;
use image::Form;

// The form that an image is moved from, by the form that it is moved to.
fn other_form(to: Form) -> Form
    ensures { result ≡ other_form to }
{
    match to {
        Form::Old => Form::New,
        Form::New => Form::Old,
    }
}

// Moves an image to a form, at the start of a lent buffer, and gives the number of bytes written. The image is checked
// as reading checks it, in the other form: one that is already in the target form is malformed.
pub fn move_image(to: Form, image: &[u8], buffer: &mut [u8]) -> Result<usize, Refusal>
    ensures value { move_said result ≡ move_of to image.now (length buffer.old) }
    ensures buffer_after { buffer.new ≡ moved_buffer to image.now buffer.old }
{
    let parked = read_in(other_form(to), image)?;
    park(to, parked.board, buffer)
}
