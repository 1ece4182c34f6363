// The names of the steps.
ghost use Rattle.std.specs.Prelude.{ℕ};
ghost use Rattle.bz_bus.specs.Inside.Plays.{drew, looked, filled, raised, gave, learnt};
ghost use Rattle.bz_bus.specs.Inside.Views.{lent, newcomer, both, spent};

use crate::Chronicle;
use crate::rule::View;
use atomic_table::{Join, Play, Split};
use std::marker::{Brand, PhantomData};

pub(crate) struct Draw;

impl<T: Chronicle> Play<Option<T>, View<T::Entry, T::Fixed>> for Draw {
    ghost then = { drew };
}

pub(crate) struct Look;

impl<T: Chronicle> Play<Option<T>, View<T::Entry, T::Fixed>> for Look {
    ghost then = { looked T.entries T.fixed T.owner };
}

// The look of the first pass, which takes the empty slot to put the value in.
pub(crate) struct Fill;

impl<T: Chronicle> Play<Option<T>, View<T::Entry, T::Fixed>> for Fill {
    ghost then = { filled };
}

pub(crate) struct Raise;

impl<T: Chronicle> Play<Option<T>, View<T::Entry, T::Fixed>> for Raise {
    ghost then = { raised T.entries };
}

pub(crate) struct GiveBack;

impl<T: Chronicle> Play<Option<T>, View<T::Entry, T::Fixed>> for GiveBack {
    ghost then = { gave };
}

// The look of the first pass after a join.
pub(crate) struct Learn;

impl<T: Chronicle> Play<Option<T>, View<T::Entry, T::Fixed>> for Learn {
    ghost then = { learnt T.owner };
}

// The number of a new pass. Each call picks it.
pub trait Numbered {
    ghost number: { ℕ };
}

impl Numbered for Brand {
    ghost number = { 0 };
}

pub(crate) struct Cut<N: Numbered> {
    of: PhantomData<N>,
}

impl<E, F, N: Numbered> Split<View<E, F>> for Cut<N> {
    ghost left = { lent N.number };

    ghost right = { newcomer N.number };
}

pub(crate) struct Glue;

impl<E, F> Join<View<E, F>> for Glue {
    ghost both = { both };

    ghost spent = { spent };
}
