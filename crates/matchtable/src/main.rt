//! Writes the outcome of every relation of at most three tracks on at most three heads, a line for each.
//! The file `stdout` has the lines that are expected: `brute_table.py` makes them by brute force, without this code.
#![tactic(auto)]

ghost use Rattle.std.specs.Prelude.{◌<◌};

use matching::Fits;
use std::{io, iter};

fn main(rt: HostRuntime) -> io::Result<()> {
    for tracks in 0..4 {
        for heads in 0..4 {
            relations(&rt, tracks, heads)?;
        }
    }
    Ok(())
}

// A line for each relation of these tracks on so many heads.
fn relations(rt: &HostRuntime, tracks: usize, heads: usize) -> io::Result<()>
    requires tracks { tracks < 4 }
    requires heads { heads < 4 }
{
    let last = (1u8 << heads) - 1;
    let relations = iter::successors(Some([0; 3]), |rows| after(*rows, tracks, last));
    for rows in relations.take(512) {
        line(rt, heads, &rows[..tracks])?;
    }
    Ok(())
}

// The relation after this one, where the row of the first track goes fastest.
fn after(mut rows: [u8; 3], tracks: usize, last: u8) -> Option<[u8; 3]> {
    for row in rows.iter_mut().take(tracks) {
        if *row < last {
            *row += 1;
            return Some(rows);
        }
        *row = 0;
    }
    None
}

fn line(rt: &HostRuntime, heads: usize, rows: &[u8]) -> io::Result<()> {
    let tracks = rows.len();
    print!(rt; "{tracks} tracks, {heads} heads, rows")?;
    for row in rows {
        print!(rt; " {row}")?;
    }
    match Fits::new(heads, rows) {
        Some(fits) => println!(rt; ": {}", fits.outcome()),
        None => println!(rt; ": refused"),
    }
}

#[cfg(test)]
mod tests {
    use matching::{Fits, Outcome};
    use std::test::Fail;

    #[test]
    fn tracks_change_places(rt: HostRuntime) -> Result<(), Fail> {
        let Some(fits) = Fits::new(2, &[0b11, 0b01]) else {
            return Err(Fail::new("refused"));
        };
        let Outcome::Seen(placing) = fits.outcome() else {
            return Err(Fail::new("short"));
        };
        assert_eq!(rt; placing.tracks(), 2);
        assert_eq!(rt; placing.head(0), Some(1));
        assert_eq!(rt; placing.head(1), Some(0));
        assert_eq!(rt; placing.head(2), None);
        Ok(())
    }

    #[test]
    fn two_tracks_want_one_head(rt: HostRuntime) -> Result<(), Fail> {
        let Some(fits) = Fits::new(3, &[0b111, 0b001, 0b001]) else {
            return Err(Fail::new("refused"));
        };
        let Outcome::Short(set) = fits.outcome() else {
            return Err(Fail::new("seen"));
        };
        assert_eq!(rt; set.number(), 6);
        assert!(rt; !set.contains(0) && set.contains(1) && set.contains(2));
        Ok(())
    }

    #[test]
    fn out_of_range_is_refused(rt: HostRuntime) {
        assert!(rt; Fits::new(9, &[0]).is_none());
        assert!(rt; Fits::new(8, &[0; 9]).is_none());
        assert!(rt; Fits::new(2, &[0b100]).is_none());
    }
}
