// How many recorded calls agree with the runs of their lists, and the first that does not.
//
// A list agrees where the calls done, the list bytes used, the answer bytes and the refusal are those recorded, and the
// buffer holds the recorded answers and then the bytes that it held before. In a list that does not agree, those calls
// agree whose recorded answers the buffer holds, up to the first that it does not hold; the call after the last one
// done is the call that ended the run.
ghost use Rattle.std.specs.Prelude.{◌≡◌, ◌≤◌, length};

use crate::{BUFFER_LIMIT, Record, leading};

// What an answer buffer holds before a run.
const OLD: u8 = 0xA5;

// A list that did not agree, and the first call in it that did not, both counted from 1 on. Call 0 stands for a record
// or a file that cannot be read.
#[derive(Clone, Copy)]
pub struct Disagreement {
    pub list: usize,
    pub call: usize,
}

// Lists, calls done as recorded, and the calls that agreed, each modulo 2^64; and the first list that did not agree.
#[derive(Clone, Copy, Default)]
pub struct Tally {
    pub lists: usize,
    pub calls: usize,
    pub agreed: usize,
    pub first: Option<Disagreement>,
}

impl Tally {
    // The tally of a record or a file that cannot be read.
    pub fn unreadable() -> Tally {
        Tally {
            first: Some(Disagreement { list: 1, call: 0 }),
            ..Tally::default()
        }
    }

    // The tally of these lists and of others after them.
    pub fn joined(self, after: Tally) -> Tally {
        let lists = self.lists;
        let later = after.first.map(|d| Disagreement {
            list: lists.wrapping_add(d.list),
            ..d
        });
        Tally {
            lists: lists.wrapping_add(after.lists),
            calls: self.calls.wrapping_add(after.calls),
            agreed: self.agreed.wrapping_add(after.agreed),
            first: self.first.or(later),
        }
    }
}

impl Record<'_> {
    // The tally of the record, run into a buffer.
    fn compared(self, buffer: &mut [u8], old: &[u8]) -> Tally
        requires { length old.now ≡ length buffer.old }
    {
        let calls = self.header.results.done.calls;
        if self.agrees(buffer, old) {
            return Tally {
                lists: 1,
                calls,
                agreed: calls,
                first: None,
            };
        }
        let agreed = leading(self.answers, buffer);
        Tally {
            lists: 1,
            calls,
            agreed,
            first: Some(Disagreement {
                list: 1,
                call: agreed.wrapping_add(1),
            }),
        }
    }

    // The tally of the record.
    pub fn tally(self) -> Tally
        requires { self.header.buffer ≤ 32768 }
    {
        let old = [OLD; BUFFER_LIMIT];
        let mut buffer = old;
        let n = self.header.buffer;
        self.compared(&mut buffer[..n], &old[..n])
    }
}
