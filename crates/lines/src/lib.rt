// The lines of a listing, as bytes.
#![tactic(auto)]

ghost use Rattle.std.specs.Prelude.{◌≡◌, ◌++◌, decimal, OnOk, IfSome, Some};
ghost use Rattle.sheetfile.specs.Card.{told};
ghost use Rattle.lines.specs.Lines.{figures, report_line, end_line, fault_line};

use sheetfile::fault::Fault;
use std::alloc::AllocError;
use std::fmt;

// Lines that text is added to: each part is one append.
struct Lines<'a>(&'a mut Vec<u8>);

impl fmt::Write for Lines<'_> {
    ghost write_str_gives = { λ old text new. (new.0.ghost_name ≡ old.0.ghost_name) × (new.0.now.items ≡ old.0.now.items ++ text) };

    fn write_str(&mut self, text: &str) -> fmt::Result {
        self.0
            .extend_from_slice(text.as_bytes())
            .map_err(|_| fmt::Error)
    }
}

// What `write!` and `writeln!` call at a `Vec` here: `io::Write` adds each part of a line in twice the steps or more.
trait Append {
    fn write_fmt<D: fmt::Display + Drop>(&mut self, text: D) -> fmt::Result;
}

impl Append for Vec<u8> {
    // Adds a text. Where the text's own `fmt` does not fail, it fails for want of memory alone.
    fn write_fmt<D: fmt::Display + Drop>(&mut self, text: D) -> fmt::Result
        ensures { OnOk result (IfSome (D.output text) (λ bytes. self.new.items ≡ self.old.items ++ bytes)) }
    {
        let mut f = fmt::Formatter::new(Lines(self));
        let result = f.write(text);
        let Lines(out) = f.into_inner();
        // No effect at run time. The proof reads what `self` holds from this use of `out`.
        let _ = &*out;
        result
    }
}

// Adds a number in decimal, without leading zeros.
pub fn push_decimal(out: &mut Vec<u8>, number: u64) -> Result<(), AllocError>
    ensures { OnOk result (out.new.items ≡ out.old.items ++ decimal number) }
{
    write!(out, "{number}").map_err(|_| AllocError)
}

// The text of a number of one figure.
#[tactic(auto, using(std::proofs::lemmas::Fmt::decimal_digit))]
fn figure(number: u8) -> Option<&'static str>
    ensures { IfSome result (λ text. text.now ≡ decimal number) }
{
    match number {
        0 => Some("0"),
        1 => Some("1"),
        2 => Some("2"),
        3 => Some("3"),
        4 => Some("4"),
        5 => Some("5"),
        6 => Some("6"),
        7 => Some("7"),
        8 => Some("8"),
        9 => Some("9"),
        _ => None,
    }
}

// Heads, each in decimal, one after another: heads are below 8, so each has one figure.
#[derive(Clone, Copy)]
struct Figures<'a>(&'a [u8]);

impl fmt::Display for Figures<'_> {
    ghost output = { λ heads. Some (figures heads.0.now) };

    fn fmt<W: fmt::Write>(&self, f: &mut fmt::Formatter<W>) -> fmt::Result {
        for head in self.0 {
            match figure(*head) {
                Some(text) => f.write_str(text)?,
                None => write!(f, "{head}")?,
            }
        }
        Ok(())
    }
}

// Adds the line of a report: a signature seen at a frame, with the head of each track.
pub fn push_report(out: &mut Vec<u8>, frame: u32, name: u16, heads: &[u8]) -> Result<(), AllocError>
    ensures { OnOk result (out.new.items ≡ out.old.items ++ report_line (record { frame = frame; name = name; heads = heads.now })) }
{
    let heads = Figures(heads);
    writeln!(out, "{frame} {name} {heads}").map_err(|_| AllocError)
}

// Adds the last line: how many frames and gaps there were.
pub fn push_end(out: &mut Vec<u8>, frames: u32, gaps: u32) -> Result<(), AllocError>
    ensures { OnOk result (out.new.items ≡ out.old.items ++ end_line frames gaps) }
{
    out.extend_from_slice(b"end")?;
    writeln!(out, " {frames} {gaps}").map_err(|_| AllocError)
}

// Adds the last line after a fault: its number, layer and place. Its word is a byte string, as `end` is, by a rule of the project.
pub fn push_fault(out: &mut Vec<u8>, fault: &Fault) -> Result<(), AllocError>
    ensures { OnOk result (out.new.items ≡ out.old.items ++ fault_line (told fault.now)) }
{
    let number = fault.cause.number();
    let layer = fault.cause.layer().number();
    let place = fault.place;
    out.extend_from_slice(b"fault")?;
    writeln!(out, " {number} {layer} {place}").map_err(|_| AllocError)
}
