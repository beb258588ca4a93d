// A bank of rows: for each signature, track and head the begun matches.
#![tactic(auto)]

ghost use Rattle.std.specs.Prelude.{◌≡◌, ℕ, List, [], ◌∷◌, map, length, Some, MatchOption};
ghost use Rattle.std.specs.List.{slice_get};
ghost use Rattle.runs.specs.Verdicts.{fits};
ghost use Rattle.sheet.specs.Said.{signature_said};
ghost use Rattle.sheetfile.specs.Sheets.{Signature};
ghost use Rattle.bank.specs.Agreement.{Agrees, Fitted, Stored};
ghost use Rattle.bank.specs.Tables.{FitsShown};

use complete::CompleteMatches;
use kinds::kind::Kind;
use matching::Fits;
use rows::Row;
use sheet::entry::Entry;
use sheetfile::limits::MOST_SIGNATURES;
use signature_rows::SignatureRows;

mod complete;
mod signature_rows;
mod track_rows;

// For each signature, track and head a row: there are rows for 12 signatures of 8 tracks on 8 heads.
#[derive(Clone, Copy)]
pub struct Bank {
    signatures: [SignatureRows; MOST_SIGNATURES],
}

impl Bank {
    // No match is begun, as before any frame.
    pub fn new<K: Kind>(kind: K) -> Bank
        ensures { (N : ℕ) (signatures : List (Signature K.Test)) → Agrees K.facts.passes N signatures [] result }
    {
        let signature = SignatureRows::of(Row::new(kind));
        Bank {
            signatures: [signature; MOST_SIGNATURES],
        }
    }

    // One accepted frame more. Entries are looked up: after a `zip` with `iter_mut` a proof knows no more of the rows than
    // their number.
    pub fn step<K: Kind>(
        &mut self,
        kind: K,
        entries: &[Entry],
        tests: &[K::Test],
        frame: &[K::Reading],
    )
        ensures { (run : List (List K.Reading)) → Fitted (length frame.now) (map (signature_said tests.now) entries.now) → Stored entries.now tests.now → Agrees K.facts.passes (length frame.now) (map (signature_said tests.now) entries.now) run self.old → Agrees K.facts.passes (length frame.now) (map (signature_said tests.now) entries.now) (frame.now ∷ run) self.new }
    {
        for (p, signature) in self.signatures.iter_mut().enumerate() {
            let Some(entry) = entries.get(p) else {
                return;
            };
            signature.step(kind, entry, tests, frame);
        }
    }

    // Which head fits which track of a signature at the newest frame. The entry has the signature's figures.
    // `None` for a position, tracks or heads that a bank has no rows for.
    pub fn fits<K: Kind>(
        &self,
        kind: K,
        position: usize,
        entry: &Entry,
        heads: usize,
    ) -> Option<Fits>
        ensures { (signatures : List (Signature K.Test)) (run : List (List K.Reading)) (s : Signature K.Test) → Fitted heads signatures → slice_get signatures position ≡ Some s → entry.now.tracks ≡ length s.tracks → entry.now.frames ≡ s.frames → Agrees K.facts.passes heads signatures run self.now → MatchOption result ⊥ (FitsShown (length s.tracks) heads (fits K.facts.passes s run)) }
    {
        let signature = self.signatures.get(position)?;
        let witness = CompleteMatches {
            kind,
            frames: entry.frames as usize,
            signature,
        };
        Fits::of(entry.tracks as usize, heads, &witness)
    }
}
