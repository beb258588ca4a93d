// Working both stations by the same calls, and comparing what they say.
ghost use Rattle.std.specs.Prelude.{◌≡◌, true, length, Ok};
ghost use Rattle.station.specs.Answers.{verdict_of, in_figures};
ghost use Rattle.station.specs.Making.{making};
ghost use Rattle.station.specs.Promises.{feed_answer, Looks};
ghost use Rattle.station.specs.Snap.{snap};
ghost use Rattle.replug.specs.Twins.{Twinned, agrees, same_answer};

use super::{Compared, Twins};
use crate::order::Order;
use kinds::kind::Kind;
use sheet::plan::Plan;
use station::refusal::Refusal;
use station::station::Station;
use station::verdict::Verdict;

// Whether two verdicts agree: both young, both seen, or short with the same set.
pub fn same_word(one: &Verdict, other: &Verdict) -> bool
    ensures { result ≡ agrees (verdict_of one.now) (verdict_of other.now) }
{
    match (one, other) {
        (Verdict::Young, Verdict::Young) => true,
        (Verdict::Seen(_), Verdict::Seen(_)) => true,
        (Verdict::Short(set), Verdict::Short(also)) => set.number() == also.number(),
        (_, _) => false,
    }
}

// Whether two answers of a look agree: verdicts that agree, or both refused.
pub fn same_answer(one: &Result<Verdict, Refusal>, other: &Result<Verdict, Refusal>) -> bool
    ensures { result ≡ same_answer (in_figures verdict_of one.now) (in_figures verdict_of other.now) }
{
    match (one, other) {
        (Ok(a), Ok(b)) => same_word(a, b),
        (Err(_), Err(_)) => true,
        (_, _) => false,
    }
}

impl<'p, 's, 't, 'u, K: Kind> Twins<'p, 's, 't, 'u, K> {
    // Two stations of the same plan and tests, each after a gap, from which on they agree. The six stay apart: a struct
    // of them would be taken apart here again, and each is lent for a time of its own.
    #[tactic(auto, using(crate::proofs::Twinned::twins_begin))]
    pub fn new(
        kind: K,
        order: Order,
        plan: &'p Plan,
        tests: &'s [K::Test],
        memory: &'t mut [K::Reading],
        other: &'u mut [K::Reading],
    ) -> Twins<'p, 's, 't, 'u, K>
        ensures order { result.order ≡ order }
        ensures twinned { making K.facts.code plan.now (length tests.now) (length memory.old) ≡ Ok tt → making K.facts.code plan.now (length tests.now) (length other.old) ≡ Ok tt → order.heads ≡ plan.now.heads → Twinned K.facts.readings.proper K.facts.passes result.order (snap result.home) (snap result.away) }
    {
        let mut home = Station::new(kind, plan, tests, memory);
        let mut away = Station::new(kind, plan, tests, other);
        home.gap();
        away.gap();
        Twins { order, home, away }
    }
    // Feeds the frame to the one, and moved by the plug order, where it is a full frame, to the other. `plugged` has a place
    // for each head.
    pub fn feed(&mut self, frame: &[K::Reading], plugged: &mut [K::Reading]) -> Result<(), Refusal>
        ensures answer { in_figures (λ u. u) result ≡ feed_answer K.facts.readings.proper (snap self.old.home).heads frame.now }
        ensures order { self.new.order ≡ self.old.order }
        ensures kept { length plugged.old ≡ self.old.order.heads → Twinned K.facts.readings.proper K.facts.passes self.old.order (snap self.old.home) (snap self.old.away) → Twinned K.facts.readings.proper K.facts.passes self.old.order (snap self.new.home) (snap self.new.away) }
    {
        let answer = self.home.feed(frame);
        if self.order.plug(frame, plugged).is_ok() {
            let _ = self.away.feed(plugged);
        } else {
            let _ = self.away.feed(frame);
        }
        answer
    }

    // A gap on both lines.
    pub fn gap(&mut self)
        ensures order { self.new.order ≡ self.old.order }
        ensures kept { Twinned K.facts.readings.proper K.facts.passes self.old.order (snap self.old.home) (snap self.old.away) → Twinned K.facts.readings.proper K.facts.passes self.old.order (snap self.new.home) (snap self.new.away) }
    {
        self.home.gap();
        self.away.gap();
    }

    // What the two say of the signature in a position, and whether they agree: they do.
    pub fn look(&self, position: usize) -> Compared
        ensures home { Looks K.facts.readings.proper K.facts.passes (snap self.now.home) position (in_figures verdict_of result.home) }
        ensures away { Looks K.facts.readings.proper K.facts.passes (snap self.now.away) position (in_figures verdict_of result.away) }
        ensures compared { result.agree ≡ same_answer (in_figures verdict_of result.home) (in_figures verdict_of result.away) }
        ensures agree { Twinned K.facts.readings.proper K.facts.passes self.now.order (snap self.now.home) (snap self.now.away) → result.agree ≡ true }
    {
        let home = self.home.look(position);
        let away = self.away.look(position);
        let agree = same_answer(&home, &away);
        Compared { home, away, agree }
    }
}
