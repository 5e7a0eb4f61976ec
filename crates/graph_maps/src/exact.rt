//! Tied names are one name.
ghost use Rattle.std.specs.Prelude.{⊤};
ghost use Rattle.graph_maps.specs.ExactKeys.{exact_names, exact_graphs, exact_types, exact_vertices, exact_edges};
ghost use Rattle.graph_maps.specs.KeyOrders.{exact_halves};
ghost use Rattle.graph_maps.specs.Keys.{IsKey};

use crate::half::Half;
use crate::places::ExactOrd;
use a1_base::Txt;
use a1_value::Value;
use type_schema::{EdgeName, GraphName, TypeName, VertexName};

// A whole number of 64 bits is not below the least one.
fn sound_key(key: &Value)
    ensures { IsKey key.now }
{
    if let Value::Int(number) = key {
        let _number = *number;
    }
}

impl ExactOrd for Txt {
    ghost IsSound = { λ _. ⊤ };

    fn sound(&self) {}

    ghost exact = { exact_names };
}

impl ExactOrd for GraphName {
    ghost IsSound = { λ _. ⊤ };

    fn sound(&self) {}

    ghost exact = { exact_graphs };
}

impl ExactOrd for TypeName {
    ghost IsSound = { λ _. ⊤ };

    fn sound(&self) {}

    ghost exact = { exact_types };
}

impl ExactOrd for VertexName {
    ghost IsSound = { λ v. IsKey v.key };

    fn sound(&self) {
        sound_key(&self.key);
    }

    ghost exact = { exact_vertices };
}

impl ExactOrd for EdgeName {
    ghost IsSound = { λ e. IsKey e.from × IsKey e.to };

    fn sound(&self) {
        sound_key(&self.from);
        sound_key(&self.to);
    }

    ghost exact = { exact_edges };
}

impl ExactOrd for Half {
    ghost IsSound = { λ h. IsKey h.edge.from × IsKey h.edge.to };

    fn sound(&self) {
        self.edge.sound();
    }

    ghost exact = { exact_halves };
}
