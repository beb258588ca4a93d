//! How many outcomes a second, over random tables and over those that take longest.
//!
//! The counts of outcomes, with a sum over what they say, go to standard output and are the same on each run; the times go to
//! standard error. `out/matchbench 100` takes a hundred times as many tables of each family, for steadier times.
#![tactic(auto)]

use matching::{Fits, Outcome};
use std::time::Instant;
use std::{env, fmt, io};

// Tables to a family and a unit of the argument.
const TABLES: u32 = 20_000;

// Where tables come from.
#[derive(Clone, Copy)]
enum Family {
    // eight random rows, each head fitting with one half
    Even,
    // eight random rows, each head fitting with one quarter
    Sparse,
    // four random rows, each head fitting with one half
    Four,
    // as even, but the last track fits no head
    Idle,
    // seven tracks fit every head, and the last only head 0: seen, found late
    Late,
    // six tracks fit every head, and the last two only head 0: short, set 192
    Pair,
    // eight tracks fit each of seven heads: short, and no smaller set is
    Full,
}

impl fmt::Display for Family {
    fn fmt<W: fmt::Write>(&self, f: &mut fmt::Formatter<W>) -> fmt::Result {
        f.write_str(match self {
            Family::Even => "even",
            Family::Sparse => "sparse",
            Family::Four => "four",
            Family::Idle => "idle",
            Family::Late => "late",
            Family::Pair => "pair",
            Family::Full => "full",
        })
    }
}

impl Family {
    // The next table: `random` has eight random rows. A table of closures would be no plainer than the match.
    fn table(self, random: [u8; 8], other: [u8; 8]) -> Option<Fits> {
        match self {
            Family::Even => Fits::new(8, &random),
            Family::Sparse => Fits::new(8, &both(random, other)),
            Family::Four => Fits::new(8, &random[0..4]),
            Family::Idle => Fits::new(8, &with_last(random, 0)),
            Family::Late => Fits::new(8, &with_last([0xff; 8], 1)),
            Family::Pair => Fits::new(8, &[0xff, 0xff, 0xff, 0xff, 0xff, 0xff, 1, 1]),
            Family::Full => Fits::new(7, &[0x7f; 8]),
        }
    }
}

const FAMILIES: [Family; 7] = [
    Family::Even,
    Family::Sparse,
    Family::Four,
    Family::Idle,
    Family::Late,
    Family::Pair,
    Family::Full,
];

fn both(a: [u8; 8], b: [u8; 8]) -> [u8; 8] {
    (u64::from_le_bytes(a) & u64::from_le_bytes(b)).to_le_bytes()
}

fn with_last(mut rows: [u8; 8], last: u8) -> [u8; 8] {
    rows[7] = last;
    rows
}

// The numbers of a xorshift.
#[derive(Drop)]
struct Xorshift(u64);

impl Xorshift {
    // The number, and then on to the next one.
    fn number(&mut self) -> u64 {
        let number = self.0;
        let mut x = number ^ (number << 13);
        x ^= x >> 7;
        self.0 = x ^ (x << 17);
        number
    }
}

// What a run over tables of a family came to.
#[derive(Clone, Copy, Default)]
struct Tally {
    seen: u64,
    short: u64,
    sum: u64,
}

impl Tally {
    fn count(&mut self, outcome: Outcome) {
        let said = match outcome {
            Outcome::Seen(placing) => {
                self.seen = self.seen.wrapping_add(1);
                placing.heads().last().copied().unwrap_or(0)
            }
            Outcome::Short(set) => {
                self.short = self.short.wrapping_add(1);
                set.number()
            }
        };
        self.sum = self.sum.wrapping_mul(31).wrapping_add(said.into());
    }
}

fn run(family: Family, tables: u32) -> Tally {
    let mut tally = Tally::default();
    let mut random = Xorshift(0x9e37_79b9_7f4a_7c15);
    for _ in 0..tables {
        let (first, second) = (random.number(), random.number());
        if let Some(fits) = family.table(first.to_le_bytes(), second.to_le_bytes()) {
            tally.count(fits.outcome());
        }
    }
    tally
}

fn report(rt: &HostRuntime, family: Family, tables: u32) -> io::Result<()> {
    let start = Instant::now(rt)?;
    let Tally { seen, short, sum } = run(family, tables);
    let nanos = start.elapsed(rt)?.as_nanos();
    println!(rt; "{family}: seen {seen}, short {short}, sum {sum:016x}")?;
    let each = nanos / u128::from(tables.max(1));
    let rate = u128::from(tables) * 1_000_000_000 / nanos.max(1);
    eprintln!(rt; "{family}: {rate} outcomes a second, {each} ns each")
}

// How many times the usual number of tables: the first argument, or 1.
fn times(rt: &HostRuntime) -> io::Result<u32> {
    let first = env::args(rt)?.nth(1);
    Ok(first.and_then(|word| word.parse().ok()).unwrap_or(1))
}

fn main(rt: HostRuntime) -> io::Result<()> {
    let tables = TABLES.saturating_mul(times(&rt)?);
    for family in FAMILIES {
        report(&rt, family, tables)?;
    }
    Ok(())
}
