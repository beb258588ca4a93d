// The fields of a file: a tag byte, a length of two bytes, and a body of that many bytes.
ghost use Rattle.std.specs.Prelude.{◌≡◌, length};
ghost use Rattle.std.specs.Option.{option_map};
ghost use Rattle.sheetfile.specs.Fields.{seen, field_in, whole_field, track_in, track, tag_of, tag_number};
ghost use Rattle.sheetfile.specs.Outcomes.{mapped};
ghost use Rattle.sheetfile.specs.Reading.{field_read};

use crate::fault::{Cause, Fault};

// bytes before a field's body: its tag and its length
pub const FIELD_START: usize = 3;

// What a field of a sheet file tells, and its tag byte.
#[derive(Clone, Copy, PartialEq, Eq, Debug)]
pub enum Tag {
    Head = 1,
    Signature = 2,
    Track = 3,
}

impl TryFrom<u8> for Tag {
    type Error = Cause;

    ghost try_from_gives = { λ byte r. r ≡ tag_of byte };

    fn try_from(byte: u8) -> Result<Self, Cause> {
        match byte {
            b if b == Tag::Head as u8 => Ok(Tag::Head),
            b if b == Tag::Signature as u8 => Ok(Tag::Signature),
            b if b == Tag::Track as u8 => Ok(Tag::Track),
            _ => Err(Cause::Tag),
        }
    }
}

// A field, as the part of the file that is its body, and the place where the field starts. Each case holds its own part
// and place, by a rule of the project.
#[derive(Clone, Copy)]
pub enum Field<'a> {
    Head(&'a [u8], usize),
    Signature(&'a [u8], usize),
    Track(&'a [u8], usize),
}

// The tag byte and the body of the field that `rest` begins with, or none where it is cut:
// under three bytes are left, or the body goes past the end.
pub fn split_field(rest: &[u8]) -> Option<(u8, &[u8])>
    ensures { option_map (λ f. (f.0, f.1.now)) result ≡ whole_field rest.now }
{
    let [tag, high, low, more @ ..] = rest else {
        return None;
    };
    let length = u16::from_be_bytes([*high, *low]) as usize;
    let body = more.get(..length)?;
    Some((*tag, body))
}

// The field that `rest` begins with, where `rest` stands at `place`. The two stay apart: a place is any number here, which
// the caller keeps, and a struct of them would be made for each call.
pub fn next_field(rest: &[u8], place: usize) -> Result<Field<'_>, Fault>
    ensures { seen result ≡ field_in place rest.now }
{
    let Some((tag, body)) = split_field(rest) else {
        return Err(Cause::Cut.at(place));
    };
    match Tag::try_from(tag) {
        Ok(Tag::Head) => Ok(Field::Head(body, place)),
        Ok(Tag::Signature) => Ok(Field::Signature(body, place)),
        Ok(Tag::Track) => Ok(Field::Track(body, place)),
        Err(cause) => Err(cause.at(place)),
    }
}

// The body of the field with this tag that is due at `place`.
pub fn body_of(due: Tag, rest: &[u8], place: usize) -> Result<&[u8], Fault>
    ensures { mapped (λ x. x.now) result ≡ field_read (tag_number due) place rest.now }
{
    match (due, next_field(rest, place)?) {
        (Tag::Head, Field::Head(body, _))
        | (Tag::Signature, Field::Signature(body, _))
        | (Tag::Track, Field::Track(body, _)) => Ok(body),
        (_, _) => Err(Cause::Tag.at(place)),
    }
}

// The body of the track field that is due at `place`, of `due` bytes.
pub fn track_body(rest: &[u8], place: usize, due: usize) -> Result<&[u8], Fault>
    ensures { mapped (λ body. track body.now place) result ≡ track_in place due rest.now }
{
    let [tag, high, low, more @ ..] = rest else {
        return Err(Cause::Cut.at(place));
    };
    if *tag != Tag::Track as u8 {
        return Err(Cause::Tag.at(place));
    }
    if u16::from_be_bytes([*high, *low]) as usize != due {
        return Err(Cause::Length.at(place));
    }
    more.get(..due).ok_or(Cause::Cut.at(place))
}
