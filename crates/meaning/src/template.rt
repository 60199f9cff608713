//! Calls whose arguments come from labels, and what a refused call does.
use atoms::Item;
use objects::Call;
use vocabulary::{AmountVerb, ItemVerb, PairVerb};

/// An item that a call takes: this one, or the one that the reply of a label has.
#[derive(Clone, Copy, Debug, PartialEq, Eq)]
pub enum Argument {
    Is(Item),
    From(u32),
}

/// A call that is made when it is reached: this one, or one whose arguments come from the replies that
/// labels hold. An amount is the number that the reply is. Of a pair the key comes first.
#[derive(Clone, Copy, Debug, PartialEq, Eq)]
pub enum Template {
    Given(Call),
    OfAmount(AmountVerb, u32),
    OfItem(ItemVerb, u32),
    OfPair(PairVerb, Argument, Argument),
}

/// What a call does to its block where its reply is a refusal: `no`, `present`, `absent`, `empty`,
/// `taken` or `missing`. The block goes on, or aborts, for a reason if there is one.
#[derive(Clone, Copy, Debug, PartialEq, Eq)]
pub enum Refusal {
    GoesOn,
    Aborts(Option<u32>),
}
