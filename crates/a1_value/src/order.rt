//! The order of values.
ghost use Rattle.std.specs.Prelude.{◌≡◌, Some, refl};
ghost use Rattle.std.specs.Ordering.{is_eq};
ghost use Rattle.std.specs.Cmp.{eq_by_cmp_equiv, partial_equiv_from_equiv, po};
ghost use Rattle.a1_value.specs.Order.{byte_order, value_order};
ghost use Rattle.a1_value.specs.OrderLaws.{value_total};

use crate::Value;
use std::cmp::Ordering;

// Compares two lists of bytes by their bytes, the shorter first where one begins with the other.
fn compare_bytes(a: &[u8], b: &[u8]) -> Ordering
    ensures { result ≡ byte_order a.now b.now }
{
    a.cmp(b)
}

/// Compares two values: numbers by size, texts and bytes by their bytes, numbers before texts before bytes.
pub fn compare(a: &Value, b: &Value) -> Ordering
    ensures { result ≡ value_order a.now b.now }
{
    match (a, b) {
        (Value::Int(a), Value::Int(b)) => a.cmp(b),
        (Value::Int(_), _) => Ordering::Less,
        (Value::Text(_), Value::Int(_)) => Ordering::Greater,
        (Value::Text(a), Value::Text(b)) => compare_bytes(a.as_bytes(), b.as_bytes()),
        (Value::Text(_), Value::Bytes(_)) => Ordering::Less,
        (Value::Bytes(a), Value::Bytes(b)) => compare_bytes(a.as_slice(), b.as_slice()),
        (Value::Bytes(_), _) => Ordering::Greater,
    }
}

impl PartialEq for Value {
    ghost eq = { λ a b. is_eq (value_order a b) };

    ghost laws = { partial_equiv_from_equiv (eq_by_cmp_equiv value_total) };

    fn eq(&self, other: &Value) -> bool {
        compare(self, other).is_eq()
    }
}

impl Eq for Value {
    ghost laws = { eq_by_cmp_equiv value_total };
}

impl PartialOrd for Value {
    ghost partial_cmp = { λ a b. Some (value_order a b) };

    ghost laws = { po value_total (λ a b. refl) };

    fn partial_cmp(&self, other: &Value) -> Option<Ordering> {
        Some(compare(self, other))
    }
}

impl Ord for Value {
    ghost cmp = { value_order };

    ghost total = { value_total };

    ghost matches_partial_cmp = { λ a b. refl };

    ghost matches_eq = { λ a b. refl };

    fn cmp(&self, other: &Value) -> Ordering {
        compare(self, other)
    }
}
