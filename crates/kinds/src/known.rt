// The kinds that the programs know, and which of them a sheet file is read as.
ghost use Rattle.std.specs.Prelude.{◌≡◌, Some};
ghost use Rattle.kinds.specs.Known.{picked, kind_text};

use crate::climate::Climate;
use crate::kind::Kind;
use crate::span::Span;
use std::fmt;

#[derive(Clone, Copy, PartialEq, Eq, Debug)]
pub enum KnownKind {
    Band,
    Span,
    Climate,
}

impl fmt::Display for KnownKind {
    ghost output = { λ kind. Some (kind_text kind) };

    fn fmt<W: fmt::Write>(&self, f: &mut fmt::Formatter<W>) -> fmt::Result {
        match self {
            KnownKind::Band => write!(f, "band"),
            KnownKind::Span => write!(f, "span"),
            KnownKind::Climate => write!(f, "climate"),
        }
    }
}

impl KnownKind {
    // The kind that a sheet file is read as: its fourth byte is the kind's code.
    // With another code there, or under four bytes, it is read as band. (No TryFrom: no code is refused.)
    pub fn of_sheet(bytes: &[u8]) -> KnownKind
        ensures { result ≡ picked bytes.now }
    {
        match bytes {
            [_, _, _, Span::CODE, ..] => KnownKind::Span,
            [_, _, _, Climate::CODE, ..] => KnownKind::Climate,
            _ => KnownKind::Band,
        }
    }
}
