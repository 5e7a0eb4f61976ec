//! Laws of texts of events.
ghost use Rattle.std.specs.Prelude.{◌≡◌, ℕ, List};
ghost use Rattle.farm_core.specs.declared.event.Event.{Event};
ghost use Rattle.steps_text.specs.EventText.{IsTextOf, IsFaultOf};

use crate::TextFault;

/// A text is that of one list of events at most.
pub fn one_reading()
    ensures { (nodes : ℕ) (text : List ℕ) (events others : List Event) →
        IsTextOf nodes text events → IsTextOf nodes text others → events ≡ others }
{}

/// A text of events has no fault.
pub fn no_fault()
    ensures { (nodes n : ℕ) (text : List ℕ) (events : List Event) →
        IsTextOf nodes text events → IsFaultOf nodes text (TextFault.Line n) → ⊥ }
{}
