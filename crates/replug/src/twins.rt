// Two stations on one sheet, side by side: one on the line as it is, one on the line plugged in another order.
use crate::order::Order;
use kinds::kind::Kind;
use station::refusal::Refusal;
use station::station::Station;
use station::verdict::Verdict;

mod working;

#[derive(Drop)]
pub struct Twins<'p, 's, 't, 'u, K: Kind> {
    order: Order,
    home: Station<'p, 's, 't, K>,
    away: Station<'p, 's, 'u, K>,
}

// What a look says on either line, and whether the two agree.
#[derive(Clone, Copy)]
pub struct Compared {
    pub home: Result<Verdict, Refusal>,
    pub away: Result<Verdict, Refusal>,
    pub agree: bool,
}
