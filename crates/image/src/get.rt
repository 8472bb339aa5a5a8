// The members of a field, read from bytes.
ghost use Rattle.std.specs.Prelude.{◌≡◌, true, cond, ◌+◌, ◌≤◌, Some, None, IfSome, length};
ghost use Rattle.format.specs.Format.{sum, header_length, members_at};
ghost use Rattle.image.specs.CodeTables.{up_to_eight, FitFrom, header_at};

use crate::Shape;
use format::HEADER_LENGTH;
use wide::fields;

// Reads the members from an index on, each of its width. The contract also says that each is within its width.
fn get_members(image: &[u8], at: usize, widths: &[usize], members: &mut [u64])
    requires { (up_to_eight widths.now ≡ true) × ((length members.old ≡ length widths.now)
        × (at + sum widths.now ≤ length image.now)) }
    ensures { (members.new ≡ members_at image.now at widths.now)
        × FitFrom 0 widths.now members.new }
{
    let mut p = at;
    for (i, width) in widths.iter().enumerate() {
        members[i] = fields::get(image, p, *width);
        p += *width;
    }
}

impl<const N: usize> Shape<N> {
    // The members of the field at an index, where its tag and length are there.
    pub fn get(&self, image: &[u8], at: usize) -> Option<[u64; N]>
        requires { at + 3 + self.now.size ≤ length image.now }
        ensures value { result
            ≡ cond (header_at image.now at self.now.tag self.now.size)
            (Some (members_at image.now (at + header_length) self.now.widths)) None }
        ensures fit { IfSome result (λ ms. FitFrom 0 self.now.widths ms) }
    {
        let tag = fields::get(image, at, 1);
        let size = fields::get(image, at + 1, 2);
        if (tag != u64::from(self.tag)) | (size != self.size as u64) {
            return None;
        }
        let mut members = [0; N];
        get_members(image, at + HEADER_LENGTH, &self.widths, &mut members);
        Some(members)
    }
}
