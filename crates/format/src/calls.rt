// A call of a known tag, decoded from the bytes at the front of a list: the members of its value, and what refuses it.
#![tactic(auto, using(crate::proofs::Decoding::whole), unfolding(crate::specs::CodeDecode::framed_as, crate::specs::CodeDecode::valued, crate::specs::CodeDecode::roomed),)]

ghost use Rattle.std.specs.Prelude.{◌≡◌, false, ◌+◌, ◌≤◌, length, eqb};
ghost use Rattle.wide.specs.Fields.{be_at};
ghost use Rattle.board.specs.Calls.{advance_by};
ghost use Rattle.board.specs.Refusals.{refusal_code};
ghost use Rattle.format.specs.Format.{value_length, answer_length, header_length, answer_too_long};
ghost use Rattle.format.specs.Tags.{tag_number};

use crate::tag::Tag;
use crate::{HEADER_LENGTH, Undecoded};
use board::calls::{Call, check_address, check_host_time, check_source};
use board::refusal::Refusal;
use channel::Cycles;
use clock::HostTime;
use controller::SourceNumber;
use wide::fields;

// ---- the members of a call

// A member of one byte.
#[tactic(auto, unfolding(wide::specs::Fields::be_at))]
fn byte_at(rest: &[u8], at: usize) -> u8
    requires { at + 1 ≤ length rest.now }
    ensures { result ≡ be_at rest.now at 1 }
{
    rest[at]
}

// The address of a register.
fn address_at(rest: &[u8]) -> u16
    requires { 5 ≤ length rest.now }
    ensures { result ≡ be_at rest.now 3 2 }
{
    fields::get(rest, 3, 2) as u16
}

// The address of a register of the controller.
fn controller_address_at(rest: &[u8]) -> u32
    requires { 7 ≤ length rest.now }
    ensures { result ≡ be_at rest.now 3 4 }
{
    fields::get(rest, 3, 4) as u32
}

fn host_at(rest: &[u8]) -> HostTime
    requires { 15 ≤ length rest.now }
    ensures { result
        ≡ record { seconds = be_at rest.now 3 8; nanoseconds = be_at rest.now 11 4 } }
{
    HostTime {
        seconds: fields::get_word(rest, 3),
        nanoseconds: fields::get(rest, 11, 4) as u32,
    }
}

// ---- the call at the front of a list

// The bytes at the front of a list, where a whole header stands, and the room for the answer of their first call.
#[derive(Clone, Copy)]
pub struct Front<'a> {
    pub rest: &'a [u8],
    pub room: usize,
    ghost header: { header_length ≤ length rest.now },
}

impl Front<'_> {
    ghost use Rattle.format.specs.CodeDecode.{value_frame, room_refusal, framed_at, Bare, decoded, names_call};

    // ---- what refuses a call of this tag

    // The header's length is the tag's, and the value is whole.
    #[tactic(auto, unfolding(crate::specs::CodeDecode::value_frame, wide::specs::Fields::be_at))]
    fn check_value(self, tag: Tag) -> Result<(), Refusal>
        ensures { refusal_code result ≡ value_frame (value_length (tag_number tag)) self.entry.rest.now }
    {
        let value = tag.value_length();
        // the low byte is taken as the more significant one, as the machine loads the two
        if u64::from(self.rest[1]) + 256 * u64::from(self.rest[2]) != 256 * value as u64 {
            return Err(Refusal::LengthWrong);
        }
        if self.rest.len() < HEADER_LENGTH + value {
            return Err(Refusal::ValueCut);
        }
        Ok(())
    }

    // The room is enough for the answer.
    fn check_room(self, tag: Tag) -> Result<(), Refusal>
        ensures { refusal_code result ≡ room_refusal self.entry.room (header_length + answer_length (tag_number tag)) }
    {
        if self.room < tag.record_length() {
            return Err(Refusal::BufferShort);
        }
        Ok(())
    }

    // ---- each call

    pub fn host_time(self) -> Result<Call, Undecoded>
        ensures value { decoded result ≡ framed_at 12 (λ l. Call.HostTime (be_at l 11 4) (be_at l 3 8)) self.entry }
        ensures named { names_call result ≡ false }
    {
        self.check_value(Tag::HostTime)?;
        let host = host_at(self.rest);
        check_host_time(host)?;
        self.check_room(Tag::HostTime)?;
        Ok(Call::HostTime(host.nanoseconds, host.seconds))
    }

    pub fn read(self) -> Result<Call, Undecoded>
        ensures value { decoded result ≡ framed_at 2 (λ l. Call.Read (be_at l 3 2)) self.entry }
        ensures named { names_call result ≡ false }
    {
        self.check_value(Tag::Read)?;
        let address = address_at(self.rest);
        check_address(address)?;
        self.check_room(Tag::Read)?;
        Ok(Call::Read(address))
    }

    pub fn write(self) -> Result<Call, Undecoded>
        ensures value { decoded result ≡ framed_at 3 (λ l. Call.Write (be_at l 5 1) (be_at l 3 2)) self.entry }
        ensures named { names_call result ≡ false }
    {
        self.check_value(Tag::Write)?;
        let address = address_at(self.rest);
        check_address(address)?;
        self.check_room(Tag::Write)?;
        Ok(Call::Write(byte_at(self.rest, 5), address))
    }

    pub fn advance(self) -> Result<Call, Undecoded>
        ensures value { decoded result ≡ framed_at 8 (λ l. advance_by (be_at l 3 8)) self.entry }
        ensures named { names_call result ≡ false }
    {
        self.check_value(Tag::Advance)?;
        self.check_room(Tag::Advance)?;
        Ok(Call::Advance(Cycles(fields::get_word(self.rest, 3))))
    }

    pub fn source(self) -> Result<Call, Undecoded>
        ensures value { decoded result ≡ framed_at 2 (λ l. Call.Source (be_at l 3 1) (be_at l 4 1)) self.entry }
        ensures named { names_call result ≡ false }
    {
        self.check_value(Tag::Source)?;
        let number = byte_at(self.rest, 3);
        let level = byte_at(self.rest, 4);
        check_source(SourceNumber(number), level)?;
        self.check_room(Tag::Source)?;
        Ok(Call::Source(number, level))
    }

    pub fn controller_read(self) -> Result<Call, Undecoded>
        ensures value { decoded result ≡ framed_at 4 (λ l. Call.ControllerRead (be_at l 3 4)) self.entry }
        ensures named { names_call result ≡ false }
    {
        self.check_value(Tag::ControllerRead)?;
        self.check_room(Tag::ControllerRead)?;
        Ok(Call::ControllerRead(controller_address_at(self.rest)))
    }

    pub fn controller_write(self) -> Result<Call, Undecoded>
        ensures value { decoded result
            ≡ framed_at 5 (λ l. Call.ControllerWrite (be_at l 7 1) (be_at l 3 4)) self.entry }
        ensures named { names_call result ≡ false }
    {
        self.check_value(Tag::ControllerWrite)?;
        self.check_room(Tag::ControllerWrite)?;
        Ok(Call::ControllerWrite(byte_at(self.rest, 7), controller_address_at(self.rest)))
    }

    // A call without members.
    pub fn bare(self, tag: Tag, call: Call) -> Result<Call, Undecoded>
        requires { Bare call (tag_number tag) }
        ensures value { decoded result ≡ framed_at 0 (λ _. call) self.entry }
        ensures named { names_call result ≡ eqb (decoded result).refusal answer_too_long }
    {
        self.check_value(tag)?;
        if self.room < tag.record_length() {
            return Err(Undecoded::NoRoom(call));
        }
        Ok(call)
    }
}
