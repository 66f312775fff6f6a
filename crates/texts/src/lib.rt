// Words and numbers of a line, put one behind the other into the lent text. A caller keeps room for the longest: a
// number has at most twenty digits and a sign.
#![tactic(auto)]

ghost use Rattle.std.specs.Prelude.{◌++◌, ◌≤◌, length};
ghost use Rattle.records.specs.Puts.{Puts, Room};
ghost use Rattle.texts.specs.Fields.{FieldFits, PutsField};

use itoa::{Buffer, Integer};
use records::lent::Lent;

/// A number in digits, of any width, with its sign where it is below zero.
pub fn put_number<I: Integer>(text: &mut Lent, n: I)
    requires { Room text.old I.MAX_STR_LEN }
    ensures put { Puts text.old (I.text n) text.new }
    ensures fits { length (I.text n) ≤ I.MAX_STR_LEN }
{
    let mut digits = Buffer::new();
    text.put(digits.format(n).as_bytes());
}

/// A word, and its number behind it.
pub fn put_field<I: Integer>(text: &mut Lent, word: &[u8], n: I)
    requires fits { FieldFits word.now text.old }
    requires short { I.MAX_STR_LEN ≤ 21 }
    ensures put { PutsField text.old (word.now ++ I.text n) text.new }
    ensures fits { length (I.text n) ≤ I.MAX_STR_LEN }
{
    text.put(word);
    put_number(text, n);
}
