// The fields of a call list's lines beside numbers: GUIDs, and numbers that may be absent.
ghost use Rattle.std.specs.Prelude.{◌≡◌, ◌-◌, ◌^◌};
ghost use Rattle.decimal.specs.Read.{read_signed};
ghost use Rattle.fields.specs.Fields.{up_to};
ghost use Rattle.fields.specs.Left.{left, first_as, Passes};
ghost use Rattle.call_line.specs.Line.{optional};
ghost use Rattle.call_line.specs.Taken.{guid_as};

use fields::line::Fields;

// GUID k is fifteen zero bytes and k.
pub fn guid(fields: &mut Fields<'_>) -> Option<[u8; 16]>
    ensures guid { result ≡ first_as (λ f. guid_as f) (left fields.old) }
    ensures next { Passes fields.old fields.new }
{
    let k = fields.byte()?;
    Some([0, 0, 0, 0, 0, 0, 0, 0, 0, 0, 0, 0, 0, 0, 0, k])
}

// A number, or `-`, absent.
pub fn number_if(fields: &mut Fields<'_>) -> Option<Option<i64>>
    ensures number { result ≡ first_as (λ f. optional (read_signed f) f) (left fields.old) }
    ensures next { Passes fields.old fields.new }
{
    if fields.dash() {
        return Some(None); // no number
    }
    let number = fields.number()?;
    Some(Some(number))
}

// Beside `number_if`: one function that takes the reader would need a clause on what it answers, longer than both.
pub fn word_if(fields: &mut Fields<'_>) -> Option<Option<u32>>
    ensures number { result ≡ first_as (λ f. optional (up_to (2 ^ 32 - 1) f) f) (left fields.old) }
    ensures next { Passes fields.old fields.new }
{
    if fields.dash() {
        return Some(None); // no digest
    }
    let word = fields.word()?;
    Some(Some(word))
}
