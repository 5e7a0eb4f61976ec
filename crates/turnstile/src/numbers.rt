//! How passes give numbers to one another.
ghost use Rattle.std.specs.Prelude.{◌≡◌, ◌≢◌, ℕ, [], ◌∷◌, ◌++◌};
ghost use Rattle.turnstile.specs.Entries.{SameOwn, longer, without};
ghost use Rattle.a1_base.specs.Lists.{IsAmong, BeginsWith};
ghost use Rattle.turnstile.specs.Turns.{first_half, second_half};
ghost use Rattle.turnstile.specs.Passes.{IsPassOf, numbers, seen};
ghost use Rattle.turnstile.specs.declared.view.Stage.TheVariants.{Idle};

use crate::keeps::Keeps;
use crate::lock::{Pass, SERVING, Turnstile};
use crate::rule::{Both, Chosen, Cut, Learnt};
use crate::view::View;
use atomic_table::Seat;
use std::marker::Brand;

impl<T: Keeps> Turnstile<T> {
    fn cut<N: Chosen>(
        &self,
        seat: &mut Seat<Option<T>, View<T::Entry>>,
        _number: u32,
    ) -> Seat<Option<T>, View<T::Entry>>
        requires table { seat.old.table_id ≡ self.now.table.shared.table_id }
        requires idle { (seat.old.me.0.stage ≡ Idle) × (seat.old.me.1 ≡ []) }
        requires among { IsAmong N.number seat.old.me.0.numbers }
        ensures table { (seat.new.table_id ≡ seat.old.table_id) × (result.table_id ≡ seat.old.table_id) }
        ensures left { seat.new.me ≡ (first_half N.number seat.old.me.0, []) }
        ensures right { result.me ≡ (second_half N.number seat.old.me.0, []) }
    {
        self.table.shared.split_seat::<Cut<N>>(seat)
    }

    /// A pass with that number alone, and one with the others. Both have seen what the pass had seen.
    pub fn split(&self, pass: Pass<T>, number: u32) -> (Pass<T>, Pass<T>)
        requires pass { IsPassOf self.now pass }
        requires among { IsAmong number (numbers pass) }
        requires another { (k : ℕ) × IsAmong k (numbers pass) × (k ≢ number) }
        ensures passes { IsPassOf self.now result.0 × IsPassOf self.now result.1 }
        ensures numbers { (numbers result.0 ≡ number ∷ []) × (numbers result.1 ≡ without number (numbers pass)) }
        ensures seen { (seen result.0 ≡ seen pass) × (seen result.1 ≡ seen pass) }
    {
        let Pass { mut seat } = pass;
        let other = self.cut::<Brand>(&mut seat, number);
        (Pass { seat }, Pass { seat: other })
    }

    /// A pass with the numbers of both, none of which both had, which has seen the longer list. That list begins with
    /// what each had seen, and has no other entries of its numbers.
    pub fn join(&self, first: Pass<T>, second: Pass<T>) -> Pass<T>
        requires { IsPassOf self.now first × IsPassOf self.now second }
        ensures pass { IsPassOf self.now result }
        ensures numbers { numbers result ≡ numbers first ++ numbers second }
        ensures apart { (k : ℕ) → IsAmong k (numbers first) → IsAmong k (numbers second) → ⊥ }
        ensures seen { seen result ≡ longer (seen first) (seen second) }
        ensures begins { BeginsWith (seen result) (seen first) × BeginsWith (seen result) (seen second) }
        ensures own { SameOwn T.number (numbers first) (seen first) (seen result)
            × SameOwn T.number (numbers second) (seen second) (seen result) }
    {
        let Pass { mut seat } = first;
        let Pass { seat: other } = second;
        self.table.shared.join_seat::<Both>(&mut seat, other);
        self.table.shared.load::<Learnt<T>>(&mut seat, SERVING);
        Pass { seat }
    }
}
