// The fields of a line, taken from its front in one pass over its bytes. What a field spells is none where the field is bad or isn't there;
// the fields behind it are the same either way.
ghost use Rattle.std.specs.Prelude.{◌≡◌, ◌+◌, ◌-◌, ◌^◌, ◌≤◌, true, false, ◌||◌, eqb, [], length, drop, option_map, is_some, slice_get};
ghost use Rattle.std.specs.Bool.{OnTrue, OnFalse};
ghost use Rattle.decimal.specs.Read.{read_unsigned, read_signed};
ghost use Rattle.fields.specs.Fields.{fields_of, up_to};
ghost use Rattle.fields.specs.Front.{ends, line_in, field_in};
ghost use Rattle.fields.specs.Left.{left, behind, Passes, first_as, sole, is_dash, behind_newline, PartRead, next_fields, next_behind};

use decimal::{split_signed, split_unsigned};

#[derive(Clone, Copy)]
pub struct Fields<'a> {
    rest: &'a [u8], // from the next field on, or from the line's end
    more: bool, // whether there is a next field; a flag and no Option, since the rest of the text is read behind the last one too
    newlines: bool, // whether the line ends at a newline, or with the text
}

impl<'a> Fields<'a> {
    // Those of a line that is all of `line`.
    pub fn of_line(line: &'a [u8]) -> Self
        ensures fields { left result ≡ fields_of line.now }
        ensures behind { behind result ≡ [] }
    {
        Fields {
            rest: line,
            more: true,
            newlines: false,
        }
    }

    // Those of a text's first line.
    pub fn of_text(text: &'a [u8]) -> Self
        ensures fields { left result ≡ fields_of (line_in true text.now) }
        ensures behind { behind result ≡ drop (length (line_in true text.now)) text.now }
    {
        Fields {
            rest: text,
            more: true,
            newlines: true,
        }
    }

    // The next field's bytes.
    pub fn text(&mut self) -> Option<&'a [u8]>
        ensures text { option_map (λ f. f.now) result ≡ slice_get (left self.old) 0 }
        ensures next { Passes self.old self.new }
    {
        if !self.more {
            return None;
        }
        let len = field_len(self.rest, self.newlines);
        let (field, behind) = self.rest.split_at(len);
        self.pass(behind);
        Some(field)
    }

    // The byte of a field of one byte.
    pub fn letter(&mut self) -> Option<u8>
        ensures letter { result ≡ first_as (λ f. sole f) (left self.old) }
        ensures next { Passes self.old self.new }
    {
        let field = self.text()?;
        if field.len() == 1 {
            Some(field[0])
        } else {
            None
        }
    }

    pub fn unsigned(&mut self) -> Option<u64>
        ensures number { result ≡ first_as (λ f. read_unsigned f) (left self.old) }
        ensures next { Passes self.old self.new }
    {
        if !self.more {
            return None;
        }
        let (value, behind) = split_unsigned(self.rest);
        if self.pass(behind) { value } else { None }
    }

    pub fn byte(&mut self) -> Option<u8>
        ensures number { result ≡ first_as (λ f. up_to (2 ^ 8 - 1) f) (left self.old) }
        ensures next { Passes self.old self.new }
    {
        u8::try_from(self.unsigned()?).ok()
    }

    pub fn word(&mut self) -> Option<u32>
        ensures number { result ≡ first_as (λ f. up_to (2 ^ 32 - 1) f) (left self.old) }
        ensures next { Passes self.old self.new }
    {
        u32::try_from(self.unsigned()?).ok()
    }

    pub fn number(&mut self) -> Option<i64>
        ensures number { result ≡ first_as (λ f. read_signed f) (left self.old) }
        ensures next { Passes self.old self.new }
    {
        if !self.more {
            return None;
        }
        let (number, behind) = split_signed(self.rest);
        if self.pass(behind) { number } else { None }
    }

    // Takes the next field where it is `-`, and answers whether it is.
    pub fn dash(&mut self) -> bool
        ensures dash { result ≡ is_dash (left self.old) }
        ensures next { OnTrue result (Passes self.old self.new) }
        ensures other { OnFalse result (self.new ≡ self.old) }
    {
        if !self.more || self.rest.is_empty() || self.rest[0] != b'-' {
            return false;
        }
        let behind = &self.rest[1..];
        if field_len(behind, self.newlines) != 0 {
            return false; // a negative number, say
        }
        self.pass(behind)
    }

    // Whether no field is left.
    pub fn end(&self) -> Option<()>
        ensures { is_some result ≡ eqb (length (left self.now)) 0 }
    {
        if self.more { None } else { Some(()) }
    }

    // What stands behind the line's newline; none where the text ends with the line.
    pub fn next_line(self) -> Option<&'a [u8]>
        ensures { option_map (λ s. s.now) result ≡ behind_newline (behind self.entry) }
    {
        let len = line_len(self.rest, self.newlines);
        match self.rest[len..].split_first() {
            Some((_, next)) => Some(next),
            None => None,
        }
    }

    // Goes on behind the next field, which is read up to `behind`, and answers whether it ends there.
    fn pass(&mut self, behind: &'a [u8]) -> bool
        requires { PartRead self.old behind.now }
        ensures whole { result ≡ eqb (length (field_in self.old.newlines behind.now)) 0 }
        ensures next { Passes self.old self.new }
    {
        if !behind.is_empty() && behind[0] == b' ' {
            self.rest = &behind[1..];
            return true;
        }
        if is_line_end(behind, self.newlines) {
            self.rest = behind;
            self.more = false;
            return true;
        }
        self.pass_unread(behind);
        false
    }

    // Goes on behind the next field, of which more bytes stand at `behind`.
    #[cold]
    fn pass_unread(&mut self, behind: &'a [u8])
        requires { PartRead self.old behind.now }
        ensures { Passes self.old self.new }
    {
        let len = field_len(behind, self.newlines);
        *self = Self::from_end(&behind[len..], self.newlines);
    }

    // Those behind a field that ends at `end`.
    fn from_end(end: &'a [u8], newlines: bool) -> Self
        requires { field_in newlines end.now ≡ [] }
        ensures fields { left result ≡ next_fields newlines end.now }
        ensures behind { behind result ≡ next_behind newlines end.now }
    {
        if !end.is_empty() && end[0] == b' ' {
            Fields {
                rest: &end[1..],
                more: true,
                newlines,
            }
        } else {
            Fields {
                rest: end,
                more: false,
                newlines,
            }
        }
    }
}

// How many bytes the line at s's front has.
fn line_len(s: &[u8], newlines: bool) -> usize
    ensures len { result ≡ length (line_in newlines s.now) }
    ensures within { result ≤ length s.now }
{
    if newlines {
        s.iter().position(|b| *b == b'\n').unwrap_or(s.len())
    } else {
        s.len()
    }
}

// Whether a line ends at s's front.
fn is_line_end(s: &[u8], newlines: bool) -> bool
    ensures { result ≡ eqb (length (line_in newlines s.now)) 0 }
{
    if s.is_empty() {
        return true;
    }
    newlines & (s[0] == b'\n')
}

// How many bytes the field at s's front has.
fn field_len(s: &[u8], newlines: bool) -> usize
    ensures len { result ≡ length (field_in newlines s.now) }
    ensures within { result ≤ length s.now }
{
    match s.iter().position(|b| ends_field(*b, newlines)) {
        Some(n) => n,
        None => s.len(),
    }
}

fn ends_field(byte: u8, newlines: bool) -> bool
    ensures { result ≡ (eqb byte 32 || ends newlines byte) }
{
    (byte == b' ') | (newlines & (byte == b'\n'))
}
