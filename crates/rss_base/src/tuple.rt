// Tuples as values.
ghost use Rattle.std.specs.Prelude.{◌≡◌, [], ◌∷◌, ◌++◌, IfOk, OnOk, OnErr};

use crate::Value;
use std::alloc::{AllocError, Global};
use std::hash::{Hash, Hasher};
use std::marker::Model;

/// The values of a tuple, in the order of its relation's fields.
#[derive(Debug, Drop)]
pub struct Tuple {
    values: Vec<Value>,
}

impl Model for Tuple {
    ghost use Rattle.std.specs.Prelude.{List};
    ghost use Rattle.rss_base.specs.declared.value.Value.{Value as FieldValue};

    ghost Value = { List FieldValue };

    ghost view = { λ t. t.values.items };
}

impl PartialEq for Tuple {
    ghost use Rattle.std.specs.Cmp.Lexicographic.{pointwise, lists_per};
    ghost use Rattle.rss_base.specs.contracts.value.ValuePartialEq.TheImpl as value_eq;
    ghost use Rattle.rss_base.specs.contracts.value.ValuePartialEq.TheImpl.Laws as value_laws;

    ghost eq = { pointwise (value_eq.ghosts).eq };

    ghost laws = { lists_per value_laws.laws-law };

    fn eq(&self, other: &Tuple) -> bool {
        self.as_slice() == other.as_slice()
    }
}

impl Eq for Tuple {
    ghost use Rattle.std.specs.Cmp.Lexicographic.{lists_equiv};
    ghost use Rattle.rss_base.specs.contracts.value.ValueEq.TheImpl.Laws as value_laws;

    ghost laws = { lists_equiv value_laws.laws-law };
}

impl Hash for Tuple {
    ghost use Rattle.std.specs.Hash.{items_Alike};
    ghost use Rattle.std.specs.Hash as fed;
    ghost use Rattle.rss_base.specs.contracts.value.ValueHash.TheImpl as value_hash;
    ghost use Rattle.rss_base.specs.contracts.value.ValueHash.TheImpl.Laws as value_laws;

    ghost hash_input = { fed.slice (value_hash.ghosts).hash_input };

    ghost respects_eq = { λ a b. (items_Alike (record { fed = value_laws.respects_eq-law })).fed a b };

    fn hash<H: Hasher>(&self, state: &mut H) {
        self.as_slice().hash(state);
    }
}

impl Tuple {
    /// The tuple of no values, which grows by this allocator.
    pub fn new(alloc: Global) -> Self
        ensures { result ≡ [] }
    {
        Tuple {
            values: Vec::new(alloc),
        }
    }

    /// The tuple of no values, with room for so many in one allocation.
    pub fn with_capacity(alloc: Global, values: usize) -> Result<Self, AllocError>
        ensures { IfOk result (λ tuple. tuple ≡ []) }
    {
        let values = Vec::with_capacity(alloc, values)?;
        Ok(Tuple { values })
    }

    /// The tuple of one value.
    pub fn single(alloc: Global, value: Value) -> Result<Self, AllocError>
        ensures { IfOk result (λ tuple. tuple ≡ value ∷ []) }
    {
        let mut tuple = Tuple::new(alloc);
        tuple.push(value)?;
        Ok(tuple)
    }

    pub fn push(&mut self, value: Value) -> Result<(), AllocError>
        ensures ok { OnOk result (self.new ≡ self.old ++ value ∷ []) }
        ensures err { OnErr result (self.new ≡ self.old) }
    {
        self.values.push(value)?;
        Ok(())
    }

    /// Takes all values out. The room for them stays.
    pub fn clear(&mut self)
        ensures { self.new ≡ [] }
    {
        self.values.clear();
    }

    pub fn as_slice(&self) -> &[Value]
        ensures { result.now ≡ self.now }
    {
        self.values.as_slice()
    }
}
