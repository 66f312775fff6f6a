// One record of a plan or of a job file in the lent buffer: kind, desk, a number of two bytes, and three words of four
// bytes, little-endian. Bytes around the record stay.
ghost use Rattle.std.specs.Prelude.{◌≡◌};
ghost use Rattle.records.specs.Laid.{code_of, row_bytes};
ghost use Rattle.records.specs.Puts.{Puts, Room};
ghost use Rattle.rules.specs.Bytes.{word, signed_word};

use crate::lent::Lent;

/// The kinds of records, in the job file and in the buffers.
#[derive(Clone, Copy, Debug, PartialEq, Eq)]
pub enum Kind {
    Piece,
    Link,
    Result,
    Run,
    Block,
    /// Any other, by its byte: a record is put of whatever kind its caller says.
    Other(u8),
}

impl From<Kind> for u8 {
    ghost from_gives = { λ kind n. n ≡ code_of kind };

    fn from(kind: Kind) -> u8 {
        match kind {
            Kind::Piece => 1,
            Kind::Link => 2,
            Kind::Result => 17,
            Kind::Run => 18,
            Kind::Block => 19,
            Kind::Other(byte) => byte,
        }
    }
}

/// What a record says, field by field in the order of its bytes.
#[derive(Clone, Copy, Debug, PartialEq, Eq)]
pub struct Row {
    pub kind: Kind,
    pub desk: u8,
    pub number: u16,
    pub words: [u32; 3],
}

impl Row {
    /// Its 16 bytes.
    pub fn to_bytes(self) -> [u8; 16]
        ensures { result ≡ row_bytes self }
    {
        let [n0, n1] = self.number.to_le_bytes();
        let [a0, a1, a2, a3] = self.words[0].to_le_bytes();
        let [b0, b1, b2, b3] = self.words[1].to_le_bytes();
        let [c0, c1, c2, c3] = self.words[2].to_le_bytes();
        [
            u8::from(self.kind),
            self.desk,
            n0,
            n1,
            a0,
            a1,
            a2,
            a3,
            b0,
            b1,
            b2,
            b3,
            c0,
            c1,
            c2,
            c3,
        ]
    }

    /// Puts the record behind what is written of the buffer.
    pub fn put(self, lent: &mut Lent)
        requires { Room lent.old 16 }
        ensures { Puts lent.old (row_bytes self) lent.new }
    {
        lent.put(&self.to_bytes());
    }
}

/// The word of a signed number, two's complement.
pub fn signed_word(x: i32) -> u32
    ensures { word result ≡ signed_word x }
{
    x.cast_unsigned()
}
