// Which heads fit which tracks, as rows tell it: those whose match is complete.
ghost use Rattle.bank.specs.Tables.{Shows};
ghost use Rattle.bank.specs.Words.{word_of};

use crate::signature_rows::SignatureRows;
use kinds::kind::Kind;
use matching::Witness;

// The rows of a signature of so many frames, at the newest frame.
#[derive(Clone, Copy)]
pub(crate) struct CompleteMatches<'a, K> {
    pub(crate) kind: K,
    pub(crate) frames: usize,
    pub(crate) signature: &'a SignatureRows,
}

impl<K: Kind> Witness for CompleteMatches<'_, K> {
    ghost Says = { λ c t h flag. Shows K.facts.passes c.frames (word_of c.signature.now t h) flag };

    fn fits(&self, track: usize, head: usize) -> bool {
        match self.signature.row(track, head) {
            Some(row) => row.fits(self.kind, self.frames),
            None => false,
        }
    }
}
