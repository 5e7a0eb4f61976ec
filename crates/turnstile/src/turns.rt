//! Entering and leaving, one atomic step a function.
ghost use Rattle.std.specs.Prelude.{◌≡◌, ◌<◌, ℕ, true, [], ◌++◌, length};
ghost use Rattle.turnstile.specs.Entries.{AllOf, SameOwn};
ghost use Rattle.a1_base.specs.Lists.{BeginsWith};
ghost use Rattle.turnstile.specs.Turns.{Drawn, Entered, Gone, IsDone, IsWaiting, having_added, is_inside};
ghost use Rattle.turnstile.specs.Passes.{IsPassOf, IsTurnOf, entered, numbers, seen, turn_numbers};
ghost use Rattle.turnstile.specs.declared.view.Stage.TheVariants.{Idle};

use crate::keeps::{Keeps, Tells};
use crate::lock::{COUNT, Held, Pass, SERVING, TICKET, Turn, Turnstile};
use crate::rule::{Counted, Drew, Looked, News, Went};
use crate::view::View;
use atomic_table::Seat;
use crossbeam_utils::Backoff;
use std::hint;
use std::marker::Brand;
use std::sync::Wait;

/// A look pauses, and does not yield, while at most so many tickets are before its own,
const NEAR: u64 = 4;

/// and at most so often.
const PAUSES: u32 = 120;

impl<T: Keeps> Turnstile<T> {
    // Draws a ticket.
    fn draw(&self, seat: &mut Seat<Option<T>, View<T::Entry>>) -> u64
        requires table { seat.old.table_id ≡ self.now.table.shared.table_id }
        requires idle { (seat.old.me.0.stage ≡ Idle) × (0 < length seat.old.me.0.numbers) }
        ensures table { seat.new.table_id ≡ seat.old.table_id }
        ensures ticket { Drawn seat.old.me result seat.new.me }
    {
        self.table.shared.fetch_add::<Drew>(seat, TICKET, 1)
    }

    // Waits until the ticket is served, and then has the slot. While few tickets are before its own it pauses shortly, so
    // that the turn is taken as soon as it comes; where many are, or a turn does not come, it lets other threads run.
    fn look<R: Wait>(&self, rt: &R, seat: &mut Seat<Option<T>, View<T::Entry>>, ticket: u64)
        requires table { seat.old.table_id ≡ self.now.table.shared.table_id }
        requires waits { IsWaiting seat.old.me ticket }
        ensures table { seat.new.table_id ≡ seat.old.table_id }
        ensures entered { (d : ℕ) × Entered T.stands T.number d seat.old.me.0 seat.new.me }
    {
        let backoff = Backoff::new();
        let mut pauses: u32 = 0;
        for _ in rt.forever() {
            let serving = self.table.shared.load::<Looked<T>>(seat, SERVING);
            if serving == ticket {
                return;
            }
            if ticket.wrapping_sub(serving) <= NEAR && pauses < PAUSES {
                pauses += 1;
                hint::spin_loop();
            } else {
                backoff.snooze();
            }
        }
        unreachable!()
    }

    // Raises the count by what was added.
    fn count<Q: Tells<T::Entry>, N: News<T::Entry>>(
        &self,
        seat: &mut Seat<Option<T>, View<T::Entry>>,
        about: &Q,
    )
        requires table { seat.old.table_id ≡ self.now.table.shared.table_id }
        requires inside { is_inside seat.old.me.0.stage ≡ true }
        requires told { N.entries ≡ Q.entries about.now }
        requires mine { AllOf T.number seat.old.me.0.numbers N.entries }
        ensures table { seat.new.table_id ≡ seat.old.table_id }
        ensures added { seat.new.me ≡ (having_added N.entries seat.old.me.0, seat.old.me.1) }
    {
        self.table
            .shared
            .fetch_add::<Counted<N>>(seat, COUNT, about.count());
    }

    // Brings the slot home, and serves the next ticket.
    fn serve_next(&self, seat: &mut Seat<Option<T>, View<T::Entry>>)
        requires table { seat.old.table_id ≡ self.now.table.shared.table_id }
        requires done { IsDone T.stands seat.old.me }
        ensures table { seat.new.table_id ≡ seat.old.table_id }
        ensures gone { Gone seat.old.me seat.new.me }
    {
        self.table.shared.fetch_add::<Went>(seat, SERVING, 1);
    }

    /// Waits for its turn, first come, first served, and has the value. The value stands for a list that begins with
    /// all that the pass had seen, and has no other entries of the pass's numbers.
    pub fn enter<R: Wait>(&self, rt: &R, pass: Pass<T>) -> Turn<T>
        requires { IsPassOf self.now pass }
        ensures turn { IsTurnOf self.now result }
        ensures numbers { turn_numbers result ≡ numbers pass }
        ensures stands { T.stands result.value (entered result) }
        ensures begins { BeginsWith (entered result) (seen pass) }
        ensures own { SameOwn T.number (numbers pass) (seen pass) (entered result) }
    {
        let Pass { mut seat } = pass;
        let ticket = self.draw(&mut seat);
        self.look(rt, &mut seat, ticket);
        let held = self.table.shared.exchange(&mut seat, 0, None);
        let Some(value) = held else { unreachable!() };
        Turn {
            held: Held { seat },
            value,
        }
    }

    /// Tells in a turn which entries were added since it began, or since it last told: they then stand behind the list
    /// that was entered, and each bears a number that the pass holds. A turn may tell of several events, one by one.
    pub fn note<Q: Tells<T::Entry>>(&self, turn: Turn<T>, about: &Q) -> Turn<T>
        requires turn { IsTurnOf self.now turn }
        requires mine { AllOf T.number (turn_numbers turn) (Q.entries about.now) }
        ensures turn { IsTurnOf self.now result }
        ensures numbers { turn_numbers result ≡ turn_numbers turn }
        ensures value { result.value ≡ turn.value }
        ensures entered { entered result ≡ entered turn ++ Q.entries about.now }
    {
        let Turn { held, value } = turn;
        let Held { mut seat } = held;
        self.count::<Q, Brand>(&mut seat, about);
        Turn {
            held: Held { seat },
            value,
        }
    }

    /// Ends a turn. The value stands for the list that was entered, with the entries behind it of which the turn told.
    pub fn leave(&self, turn: Turn<T>) -> Pass<T>
        requires turn { IsTurnOf self.now turn }
        requires stands { T.stands turn.value (entered turn) }
        ensures pass { IsPassOf self.now result }
        ensures numbers { numbers result ≡ turn_numbers turn }
        ensures seen { seen result ≡ entered turn }
    {
        let Turn { held, value } = turn;
        let Held { mut seat } = held;
        let empty = self.table.shared.exchange(&mut seat, 0, Some(value));
        let None = empty else { unreachable!() };
        self.serve_next(&mut seat);
        Pass { seat }
    }
}
