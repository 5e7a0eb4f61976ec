//! The rule of the table, and what each step tells.
use crate::keeps::Keeps;
use crate::view::{Key, View};
use atomic_table::{Join, Play, Split, TableRule};
use std::marker::{Brand, PhantomData};

/// Tickets, turns and entries are counted, and the value at home stands for all entries.
pub struct Turns<T> {
    marker: PhantomData<T>,
}

impl<T: Keeps> TableRule<Option<T>, View<T::Entry>, Key<T>> for Turns<T> {
    ghost use Rattle.turnstile.specs.Turns.{Kept, newcomer};

    ghost holds = { λ key. Kept T.stands T.number key.passes (T.first key.value.value) };

    ghost first = { λ key. newcomer key.passes (T.first key.value.value) };
}

/// A ticket was drawn.
pub struct Drew;

impl<S, E> Play<S, View<E>> for Drew {
    ghost use Rattle.turnstile.specs.Turns.{drew};

    ghost then = { drew };
}

/// The ticket that is served was looked at, and the slot taken where it is the seat's.
pub struct Looked<T> {
    marker: PhantomData<T>,
}

impl<T: Keeps> Play<Option<T>, View<T::Entry>> for Looked<T> {
    ghost use Rattle.turnstile.specs.Turns.{looked};

    ghost then = { looked T.stands T.number };
}

/// The entries of a turn. Each call that ends a turn picks them.
pub trait News<E> {
    ghost use Rattle.std.specs.Prelude.{List};

    ghost entries: { List E };
}

impl<E> News<E> for Brand {
    ghost use Rattle.std.specs.Prelude.{[]};

    ghost entries = { [] };
}

/// The count was raised by the entries of a turn.
pub struct Counted<N> {
    marker: PhantomData<N>,
}

impl<S, E, N: News<E>> Play<S, View<E>> for Counted<N> {
    ghost use Rattle.turnstile.specs.Turns.{counted};

    ghost then = { counted N.entries };
}

/// The slot came home, and the next ticket is served.
pub struct Went;

impl<S, E> Play<S, View<E>> for Went {
    ghost use Rattle.turnstile.specs.Turns.{gone};

    ghost then = { gone };
}

/// The number that a pass gives away. Each call that splits picks it.
pub trait Chosen {
    ghost use Rattle.std.specs.Prelude.{ℕ};

    ghost number: { ℕ };
}

impl Chosen for Brand {
    ghost number = { 0 };
}

/// One number goes from the others.
pub struct Cut<N> {
    marker: PhantomData<N>,
}

impl<E, N: Chosen> Split<View<E>> for Cut<N> {
    ghost use Rattle.turnstile.specs.Turns.{first_half, second_half};

    ghost left = { first_half N.number };

    ghost right = { second_half N.number };
}

/// Two passes become one.
pub struct Both;

impl<E> Join<View<E>> for Both {
    ghost use Rattle.turnstile.specs.Turns.{joined, spent};

    ghost both = { joined };

    ghost spent = { spent };
}

/// A seat learned that what it has seen begins with what it heard.
pub struct Learnt<T> {
    marker: PhantomData<T>,
}

impl<T: Keeps> Play<Option<T>, View<T::Entry>> for Learnt<T> {
    ghost use Rattle.turnstile.specs.Turns.{learned};

    ghost then = { learned T.number };
}
