//! Comparisons of a record's values.
ghost use Rattle.std.specs.Prelude.{◌≡◌};
ghost use Rattle.a1ql_plan.specs.Answer.{is_so, holds, all_hold};

use a1_value::Value;
use a1ql_plan::Predicate;
use a1ql_reader::Comparison;
use std::cmp::Ordering;
use type_schema::Record;

// Whether values in this order are as the comparison wants them.
fn is_so(op: Comparison, order: Ordering) -> bool
    ensures { result ≡ is_so op order }
{
    match op {
        Comparison::Eq => order.is_eq(),
        Comparison::Ne => order.is_ne(),
        Comparison::Lt => order.is_lt(),
        Comparison::Le => order.is_le(),
        Comparison::Gt => order.is_gt(),
        Comparison::Ge => order.is_ge(),
    }
}

fn holds(values: &[Value], test: &Predicate) -> bool
    ensures { result ≡ holds values.now test.now }
{
    match values.get(test.place) {
        Some(value) => is_so(test.op, value.cmp(&test.value)),
        None => false,
    }
}

/// Whether each comparison holds for the record.
pub fn all_hold(tests: &[Predicate], values: &Record) -> bool
    ensures { result ≡ all_hold tests.now values.now }
{
    tests
        .iter()
        .all(|test| holds(values.values.as_slice(), test))
}
