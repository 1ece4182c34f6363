// What a pass knows, and the rule of the table that the passes share.
use crate::Chronicle;
use atomic_table::TableRule;
use std::collections::LinkedList;
use std::marker::PhantomData;

// What the first pass has just gained from one that was joined.
pub struct Gain<E> {
    pub number: u64,
    pub theirs: LinkedList<E>,
    pub mine: LinkedList<E>,
    pub free: LinkedList<bool>,
}

// Where a pass stands. A ticket is a count that never wraps.
pub enum Stage<E> {
    Idle,
    // The first pass, with ticket 0, before the value is in the slot.
    Opens,
    Waits(u64),
    // It has the slot, and its ticket is served.
    Holds(u64),
    // The first pass, until it looks at what the join has left.
    Joined(Gain<E>),
    // No pass any more.
    Spent,
}

// What a pass knows. No value of it is made.
pub struct View<E, F> {
    pub stage: Stage<E>,
    pub number: u64,
    pub seen: LinkedList<E>,
    pub fixed: Option<F>,
    // Of the first pass: for each number whether no pass has it.
    pub free: LinkedList<bool>,
}

pub struct Turns<T> {
    value: PhantomData<T>,
}

impl<T: Chronicle> TableRule<Option<T>, View<T::Entry, T::Fixed>, T> for Turns<T> {
    ghost use Rattle.bz_bus.specs.Inside.Rule.{Orderly};
    ghost use Rattle.bz_bus.specs.Inside.Views.{opener};

    ghost holds = { λ key. Orderly T.entries T.fixed T.owner key };

    ghost first = { λ key. opener (T.fixed key) (T.entries key) };
}
