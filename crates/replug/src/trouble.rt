// Why nothing can be shown.
ghost use Rattle.std.specs.Prelude.{◌≡◌, Some};
ghost use Rattle.replug.specs.Refusing.{trouble_text};
ghost use Rattle.replug.specs.declared.trouble.Trouble.TheVariants.{Text, Fault as ByFault};

use sheetfile::fault::Fault;
use std::alloc::AllocError;
use std::error::Error;
use std::fmt;

#[derive(Clone, Copy, PartialEq, Eq, Debug)]
pub enum Trouble {
    // the sheet or the run is at fault
    Fault(Fault),
    // the text found no memory
    Text,
}

impl fmt::Display for Trouble {
    ghost output = { λ trouble. Some (trouble_text trouble) };

    fn fmt<W: fmt::Write>(&self, f: &mut fmt::Formatter<W>) -> fmt::Result {
        match self {
            Trouble::Fault(fault) => write!(f, "{fault}"),
            Trouble::Text => write!(f, "no memory for the text"),
        }
    }
}

impl Error for Trouble {}

impl From<Fault> for Trouble {
    ghost from_gives = { λ fault trouble. trouble ≡ ByFault fault };

    fn from(fault: Fault) -> Trouble {
        Trouble::Fault(fault)
    }
}

impl From<fmt::Error> for Trouble {
    ghost from_gives = { λ _ trouble. trouble ≡ Text };

    fn from(_error: fmt::Error) -> Trouble {
        Trouble::Text
    }
}

impl From<AllocError> for Trouble {
    ghost from_gives = { λ _ trouble. trouble ≡ Text };

    fn from(_error: AllocError) -> Trouble {
        Trouble::Text
    }
}
