// A buffer that a caller lent, filled from the front: it and the place reached go together, so that whatever is put
// stands behind what was put before.
ghost use Rattle.std.specs.Prelude.{◌≡◌, ◌+◌, ◌≤◌, length};

/// A lent buffer, and how many bytes at its front are written.
#[derive(Drop)]
pub struct Lent<'a> {
    pub bytes: &'a mut [u8],
    pub at: usize,
}

// Bytes are put over a part of as many, one by one: a copy at once is a call of memmove where the lengths are not known,
// which a library for C would need from outside.
fn put_over(part: &mut [u8], more: &[u8])
    requires { length part.old ≡ length more.now }
    ensures { part.new ≡ more.now }
{
    for (k, &byte) in more.iter().enumerate() {
        part[k] = byte;
    }
}

impl<'a> Lent<'a> {
    ghost use Rattle.records.specs.Puts.{Puts, Room};

    /// Puts bytes behind those that are written.
    pub fn put(&mut self, more: &[u8])
        requires { Room self.old (length more.now) }
        ensures { Puts self.old more.now self.new }
    {
        put_over(&mut self.bytes[self.at..self.at + more.len()], more);
        self.at += more.len();
    }
}
