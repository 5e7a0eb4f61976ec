//! The turnstile, the passes that may enter it, and a turn inside.
ghost use Rattle.std.specs.Prelude.{◌≡◌, ◌<◌, true, [], ◌∷◌, length, None};
ghost use Rattle.turnstile.specs.Turns.{is_inside};
ghost use Rattle.turnstile.specs.declared.view.Stage.TheVariants.{Idle};

use crate::keeps::Keeps;
use crate::rule::Turns;
use crate::view::{Key, View};
use atomic_table::{Seat, Table};
use std::alloc::Global;

// The words of the table: tickets drawn, tickets served, and the entries of the list, each modulo 2^64.
pub(crate) const TICKET: usize = 0;

pub(crate) const SERVING: usize = 1;

pub(crate) const COUNT: usize = 2;

#[derive(Drop)]
/// A first-come lock round a value, which stands for a list of entries.
pub struct Turnstile<T: Keeps> {
    pub(crate) table: Table<Option<T>, View<T::Entry>, Key<T>, Turns<T>, Global>,
    ghost sized: { (table.shared.table_id.words ≡ 3) × (table.shared.table_id.slots ≡ 1) },
}

/// The right to enter. It holds numbers, and has seen a list.
#[derive(Drop)]
pub struct Pass<T: Keeps> {
    pub(crate) seat: Seat<Option<T>, View<T::Entry>>,
    pub(crate) ghost empty: { seat.me.1 ≡ [] },
    pub(crate) ghost idle: { seat.me.0.stage ≡ Idle },
    pub(crate) ghost some_number: { 0 < length seat.me.0.numbers },
}

/// The value, in the hands of who entered. It has to be left: nobody enters before.
pub struct Turn<T: Keeps> {
    pub(crate) held: Held<T>,
    pub(crate) value: T,
}

/// The right to bring the value home.
pub struct Held<T: Keeps> {
    pub(crate) seat: Seat<Option<T>, View<T::Entry>>,
    pub(crate) ghost hand: { seat.me.1 ≡ (0, None) ∷ [] },
    pub(crate) ghost inside: { is_inside seat.me.0.stage ≡ true },
    pub(crate) ghost some_number: { 0 < length seat.me.0.numbers },
}
