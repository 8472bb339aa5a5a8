// Parked boards: a sound board written to a lent buffer as its image, in a form, an image read back, and an image moved
// from one form to the other.
#![tactic(auto)]

ghost use Rattle.std.specs.Prelude.{◌≡◌, OnOk, length};
ghost use Rattle.board.specs.Refusals.{refusal_code};
ghost use Rattle.image.specs.declared.Form.TheVariants.{Old};
ghost use Rattle.image.specs.Image.{image_length, image_of, formed};
ghost use Rattle.parking.specs.Parking.{default_form, form_takes, parking_refusal};
ghost use Rattle.parking.specs.Parking.{writing_of, buffer_after, said, reading_in, reading_of};
ghost use Rattle.parking.specs.Answers.{was_read, reading_said, writing_said, written};
ghost use Rattle.parking.specs.CodeReads.{members_read};

use board::Board;
use board::calls::Answered;
use board::refusal::Refusal;
use image::{Form, NEW_LENGTH, OLD_LENGTH, RATE_SIZE, image_length};

mod get;
pub mod moves;

// The board that was read, and the form of its image.
#[derive(Clone, Copy)]
pub struct Parked {
    pub board: Board,
    pub form: Form,
}

// The board that was read, the form of its image, and the refusal. Where the reading is refused, the board is a fresh
// one, and the form is the new one.
#[derive(Clone, Copy)]
pub struct Reading {
    pub board: Board,
    pub form: Form,
    pub end: Result<(), Refusal>,
}

// Whether a form takes boards of a rate. The old form has no rate, so it takes only boards at 48,000,000.
fn form_takes(form: Form, rate: u32) -> bool
    ensures { result ≡ form_takes form rate }
{
    match form {
        Form::Old => rate == Board::RATE,
        Form::New => true,
    }
}

// Refuses to write a sound board at a rate in a form, to a buffer of `room` bytes.
fn check_parking(form: Form, rate: u32, room: usize) -> Result<(), Refusal>
    ensures { refusal_code result ≡ parking_refusal form rate room }
{
    if !form_takes(form, rate) {
        return Err(Refusal::RateNeedsNewForm);
    }
    if room < image_length(form) {
        return Err(Refusal::BufferShort);
    }
    Ok(())
}

// Writes a board's image in a form at the start of a lent buffer, and gives the number of bytes written. Where that is
// accepted, reading the image gives the board and the form.
pub fn park(form: Form, board: Board, buffer: &mut [u8]) -> Result<usize, Refusal>
    ensures value { writing_said board result ≡ writing_of form board (length buffer.old) }
    ensures buffer_after { buffer.new ≡ buffer_after form board buffer.old }
    ensures board_value { OnOk result
        (reading_of (image_of form board) ≡ record { board = board; form = form; refusal = 0 }) }
{
    board.check_sound()?;
    check_parking(form, board.clock.rate, buffer.len())?;
    image::put::put_image(buffer, form, board);
    Ok(image_length(form))
}

// The same, with the board handed back.
pub fn write_in(form: Form, board: Board, buffer: &mut [u8]) -> Answered<usize>
    ensures value { written result ≡ writing_of form board (length buffer.old) }
    ensures buffer_after { buffer.new ≡ buffer_after form board buffer.old }
    ensures board_value { OnOk result.answer
        (reading_of (image_of form board) ≡ record { board = board; form = form; refusal = 0 }) }
{
    let answer = park(form, board, buffer);
    Answered { board, answer }
}

// The same in the new form, which is written unless the old is chosen.
pub fn write(board: Board, buffer: &mut [u8]) -> Answered<usize>
    ensures value { written result ≡ writing_of default_form board (length buffer.old) }
    ensures buffer_after { buffer.new ≡ buffer_after default_form board buffer.old }
    ensures board_value { OnOk result.answer
        (reading_of (image_of default_form board) ≡ record { board = board; form = default_form; refusal = 0 }) }
{
    write_in(Form::New, board, buffer)
}

// Reads S-1's fields of an image in a form, with its board at a rate.
fn read_fields(form: Form, rate: u32, fields: &[u8]) -> Result<Parked, Refusal>
    requires { length fields.now ≡ image_length Old }
    ensures { reading_said result ≡ members_read form rate (formed Old fields.now)
        (said Old fields.now) }
{
    let Some(said) = get::board_in(rate, fields) else {
        return Err(Refusal::ImageMalformed);
    };
    if !said.empties_hold_0 {
        return Err(Refusal::NotSound);
    }
    let board = said.board;
    // the test itself, because `check_sound` would take a copy of the board
    if !board.sound() {
        return Err(Refusal::NotSound);
    }
    Ok(Parked { board, form })
}

// Reads the board of an image in either form. The length tells which of the two it is.
pub fn unpark(image: &[u8]) -> Result<Parked, Refusal>
    ensures { reading_said result ≡ reading_of image.now }
{
    if image.len() == NEW_LENGTH {
        let rate = get::rate_in(image).ok_or(Refusal::ImageMalformed)?;
        read_fields(Form::New, rate, &image[RATE_SIZE..])
    } else if image.len() == OLD_LENGTH {
        read_fields(Form::Old, Board::RATE, image)
    } else {
        Err(Refusal::ImageMalformed)
    }
}

// The same; a refused reading hands back a fresh board, and the form that it would be written in.
pub fn read(image: &[u8]) -> Reading
    ensures { was_read result ≡ reading_of image.now }
{
    match unpark(image) {
        Ok(Parked { board, form }) => Reading {
            board,
            form,
            end: Ok(()),
        },
        Err(refusal) => Reading {
            board: Board::fresh(),
            form: Form::New,
            end: Err(refusal),
        },
    }
}

// Reads the board of an image in this form alone.
fn read_in(form: Form, image: &[u8]) -> Result<Parked, Refusal>
    ensures { reading_said result ≡ reading_in form image.now }
{
    if image.len() != image_length(form) {
        return Err(Refusal::ImageMalformed);
    }
    unpark(image)
}
