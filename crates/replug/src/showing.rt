// What a line shows over a recorded run, in every plug order.
ghost use Rattle.std.specs.Prelude.{◌≡◌, length, IfOk, Ok, Some};
ghost use Rattle.station.specs.Making.{making};
ghost use Rattle.station.specs.Snap.{snap};
ghost use Rattle.replug.specs.Tallies.{tally_text, Counts};
ghost use Rattle.replug.specs.Twins.{Twinned};

use crate::order::Order;
use crate::plugs::advance;
use crate::trouble::Trouble;
use crate::twins::Twins;
use kinds::kind::Kind;
use runfile::field::{FIELD_START, RunField, next_run_field};
use runfile::frame::read_frame;
use sheet::plan::Plan;
use sheetfile::limits::MOST_HEADS;
use station::verdict::Verdict;
use std::fmt;
use std::fmt::{Display, Write};

// lists of as many sockets as heads, at most: 8 ^ 8
const MOST_LISTS: usize = 16_777_216;

// How many plug orders there were, and how often the two lines agreed and differed.
#[derive(Clone, Copy, Default, PartialEq, Eq, Debug)]
pub struct Tally {
    pub orders: usize,
    pub agreed: usize,
    pub differed: usize,
}

impl Tally {
    fn count(&mut self, agree: bool)
        ensures { Counts self.old agree self.new }
    {
        if agree {
            self.agreed = self.agreed.saturating_add(1);
        } else {
            self.differed = self.differed.saturating_add(1);
        }
    }
}

// How many orders and verdicts there were, and whether all agree.
impl fmt::Display for Tally {
    ghost output = { λ tally. Some (tally_text tally) };

    fn fmt<W: fmt::Write>(&self, f: &mut fmt::Formatter<W>) -> fmt::Result {
        let Tally {
            orders,
            agreed,
            differed,
        } = *self;
        if differed == 0 {
            write!(
                f,
                "{orders} plug orders, {agreed} verdicts: every verdict agrees"
            )
        } else {
            write!(
                f,
                "{orders} plug orders: {agreed} verdicts agree, {differed} differ"
            )
        }
    }
}

// Figures, with a blank before each. `matching` has the same for heads alone, with its text as a clause.
#[derive(Clone, Copy)]
struct Spaced<'a, T>(&'a [T]);

impl<T: Display> fmt::Display for Spaced<'_, T> {
    fn fmt<W: fmt::Write>(&self, f: &mut fmt::Formatter<W>) -> fmt::Result {
        for figure in self.0 {
            write!(f, " {figure}")?;
        }
        Ok(())
    }
}

// A sheet and a run that are shown, a place for a frame as it is read, and the text that is added to. The place for a frame
// as it is plugged goes with the calls: as a field it would be a second `&mut` of the struct in the one call of `feed`, which
// the borrow checker does not cover.
#[derive(Drop)]
struct Showing<'a, K: Kind> {
    kind: K,
    plan: &'a Plan,
    tests: &'a [K::Test],
    run: &'a [u8],
    frame: &'a mut [K::Reading],
    tally: Tally,
    text: &'a mut String,
}

impl<K: Kind> Showing<'_, K> {
    // Compares the two lines at every signature after a frame; those seen on the second go into the text.
    fn compare(&mut self, twins: &Twins<'_, '_, '_, '_, K>, number: usize) -> fmt::Result
        ensures plan { self.new.plan ≡ self.old.plan }
        ensures tests { self.new.tests ≡ self.old.tests }
        ensures differed { Twinned K.facts.readings.proper K.facts.passes twins.now.order (snap twins.now.home) (snap twins.now.away) → self.new.tally.differed ≡ self.old.tally.differed }
    {
        for (position, entry) in self.plan.entries().iter().enumerate() {
            let looked = twins.look(position);
            self.tally.count(looked.agree);
            if let Ok(Verdict::Seen(placing)) = looked.away {
                let name = entry.name;
                let heads = Spaced(placing.heads());
                write!(self.text, "; frame {number}: {name} on{heads}")?;
            }
        }
        Ok(())
    }

    // Works both lines by one field of the run; the answer is the number of frames so far.
    fn work_field(
        &mut self,
        twins: &mut Twins<'_, '_, '_, '_, K>,
        field: RunField<'_>,
        number: usize,
        plugged: &mut [K::Reading],
    ) -> Result<usize, Trouble>
        ensures plan { self.new.plan ≡ self.old.plan }
        ensures tests { self.new.tests ≡ self.old.tests }
        ensures order { twins.new.order ≡ twins.old.order }
        ensures twinned { length plugged.old ≡ twins.old.order.heads → Twinned K.facts.readings.proper K.facts.passes twins.old.order (snap twins.old.home) (snap twins.old.away) → Twinned K.facts.readings.proper K.facts.passes twins.new.order (snap twins.new.home) (snap twins.new.away) }
        ensures differed { length plugged.old ≡ twins.old.order.heads → Twinned K.facts.readings.proper K.facts.passes twins.old.order (snap twins.old.home) (snap twins.old.away) → self.new.tally.differed ≡ self.old.tally.differed }
    {
        match field {
            RunField::Frame(body, at) => {
                let start = at.saturating_add(FIELD_START);
                read_frame(self.kind, body, start, self.frame)?;
                let _ = twins.feed(self.frame, plugged);
                let next = number.saturating_add(1);
                self.compare(twins, next)?;
                Ok(next)
            }
            RunField::Gap(_) => {
                twins.gap();
                Ok(number)
            }
        }
    }

    // Works both lines by the run. An iterator over fields would have to hand on the fault beside each field, and is no shorter.
    fn work(
        &mut self,
        twins: &mut Twins<'_, '_, '_, '_, K>,
        plugged: &mut [K::Reading],
    ) -> Result<(), Trouble>
        ensures plan { self.new.plan ≡ self.old.plan }
        ensures tests { self.new.tests ≡ self.old.tests }
        ensures differed { length plugged.old ≡ twins.old.order.heads → Twinned K.facts.readings.proper K.facts.passes twins.old.order (snap twins.old.home) (snap twins.old.away) → self.new.tally.differed ≡ self.old.tally.differed }
    {
        let frame_bytes = self.frame.len().saturating_mul(K::R);
        let mut rest = self.run;
        let mut place = 0usize;
        let mut number = 0usize;
        // no iterator: a field tells by its size where the next begins, and may be a fault
        while !rest.is_empty() {
            let field = next_run_field(rest, place, frame_bytes)?;
            let size = field.size();
            number = self.work_field(twins, field, number, plugged)?;
            rest = &rest[size.min(rest.len())..];
            place = place.saturating_add(size);
        }
        Ok(())
    }

    // A line of the text: the order, and what the line plugged so sees.
    fn show_order(
        &mut self,
        order: Order,
        plugs: &[usize],
        home: &mut [K::Reading],
        away: &mut [K::Reading],
        plugged: &mut [K::Reading],
    ) -> Result<(), Trouble>
        ensures plan { self.new.plan ≡ self.old.plan }
        ensures tests { self.new.tests ≡ self.old.tests }
        ensures differed { making K.facts.code self.old.plan.now (length self.old.tests.now) (length home.old) ≡ Ok tt → making K.facts.code self.old.plan.now (length self.old.tests.now) (length away.old) ≡ Ok tt → order.heads ≡ self.old.plan.now.heads → length plugged.old ≡ order.heads → self.new.tally.differed ≡ self.old.tally.differed }
    {
        let sockets = Spaced(plugs);
        write!(self.text, "sockets{sockets}")?;
        let mut twins = Twins::new(self.kind, order, self.plan, self.tests, home, away);
        self.work(&mut twins, plugged)?;
        writeln!(self.text)?;
        self.tally.orders = self.tally.orders.saturating_add(1);
        Ok(())
    }

    // The same for a list of sockets, where it is a plug order.
    fn show_sockets(
        &mut self,
        plugs: &[usize],
        home: &mut [K::Reading],
        away: &mut [K::Reading],
        plugged: &mut [K::Reading],
    ) -> Result<(), Trouble>
        ensures plan { self.new.plan ≡ self.old.plan }
        ensures tests { self.new.tests ≡ self.old.tests }
        ensures differed { making K.facts.code self.old.plan.now (length self.old.tests.now) (length home.old) ≡ Ok tt → making K.facts.code self.old.plan.now (length self.old.tests.now) (length away.old) ≡ Ok tt → length plugs.now ≡ self.old.plan.now.heads → length plugged.old ≡ self.old.plan.now.heads → self.new.tally.differed ≡ self.old.tally.differed }
    {
        match Order::new(plugs) {
            Some(order) => self.show_order(order, plugs, home, away, plugged),
            None => Ok(()),
        }
    }

    // A line of the text for each plug order. Memory for two tails and for a frame as it is plugged is lent.
    fn show_all(
        &mut self,
        home: &mut [K::Reading],
        away: &mut [K::Reading],
        plugged: &mut [K::Reading],
    ) -> Result<(), Trouble>
        ensures differed { making K.facts.code self.old.plan.now (length self.old.tests.now) (length home.old) ≡ Ok tt → making K.facts.code self.old.plan.now (length self.old.tests.now) (length away.old) ≡ Ok tt → length plugged.old ≡ self.old.plan.now.heads → self.new.tally.differed ≡ self.old.tally.differed }
    {
        let mut places = [0; MOST_HEADS];
        let plugs = &mut places[..self.plan.heads().min(MOST_HEADS)];
        // as many times as there are lists, since a loop has to end
        for _ in 0..MOST_LISTS {
            self.show_sockets(plugs, home, away, plugged)?;
            if !advance(plugs) {
                break;
            }
        }
        Ok(())
    }
}

// A line for each plug order: the order, and what the line plugged so sees. Memory for two tails and two frames is lent.
// The answer counts orders and verdicts. Where a station can be made in either memory, and `plugged` has a place for each
// head, no verdict differs from that of the line as it is (`agreed`).
pub fn show_orders<'a, K: Kind>(
    kind: K,
    plan: &'a Plan,
    tests: &'a [K::Test],
    run: &'a [u8],
    home: &mut [K::Reading],
    away: &mut [K::Reading],
    frame: &'a mut [K::Reading],
    plugged: &mut [K::Reading],
    out: &'a mut String,
) -> Result<Tally, Trouble>
    ensures agreed { making K.facts.code plan.now (length tests.now) (length home.old) ≡ Ok tt → making K.facts.code plan.now (length tests.now) (length away.old) ≡ Ok tt → length plugged.old ≡ plan.now.heads → IfOk result (λ tally. tally.differed ≡ 0) }
{
    let mut showing = Showing {
        kind,
        plan,
        tests,
        run,
        frame,
        tally: Tally::default(),
        text: out,
    };
    showing.show_all(home, away, plugged)?;
    Ok(showing.tally)
}
