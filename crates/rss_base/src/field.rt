// Fields of relations.
ghost use Rattle.std.specs.Prelude.{◌≡◌, [], ◌∷◌, ◌++◌, map, IfOk, OnOk, OnErr};
ghost use Rattle.rss_base.specs.TupleTypes.{form_of, as_original};

use crate::{FieldForm, FieldKind, Name};
use std::alloc::{AllocError, Global};
use std::marker::Model;

/// A field of a relation, by its name.
#[derive(Clone, Copy, Debug, PartialEq, Eq)]
pub struct FieldDef {
    pub name: Name,
    pub kind: FieldKind,
    /// It was added to a relation that was there, after the fields that it had.
    pub added: bool,
}

impl FieldDef {
    /// What the field asks of its values.
    pub fn form(self) -> FieldForm
        ensures { result ≡ form_of self }
    {
        FieldForm {
            kind: self.kind,
            added: self.added,
        }
    }
}

/// The most fields that a relation has.
pub const MOST_FIELDS: usize = 16;

/// The most bytes that the values of a relation's tuple have.
pub const MOST_WIDTH: usize = 2048;

/// The fields of a relation, in their order.
#[derive(Debug, Drop)]
pub struct Fields {
    fields: Vec<FieldDef>,
}

impl Model for Fields {
    ghost use Rattle.std.specs.Prelude.{List};
    ghost use Rattle.rss_base.specs.declared.field.FieldDef.{FieldDef};

    ghost Value = { List FieldDef };

    ghost view = { λ f. f.fields.items };
}

impl Fields {
    /// No fields; the list grows by this allocator.
    pub fn new(alloc: Global) -> Self
        ensures { result ≡ [] }
    {
        Fields {
            fields: Vec::new(alloc),
        }
    }

    /// No fields, with room for so many in one allocation.
    pub fn with_capacity(alloc: Global, fields: usize) -> Result<Self, AllocError>
        ensures { IfOk result (λ fields. fields ≡ []) }
    {
        let fields = Vec::with_capacity(alloc, fields)?;
        Ok(Fields { fields })
    }

    pub fn push(&mut self, field: FieldDef) -> Result<(), AllocError>
        ensures ok { OnOk result (self.new ≡ self.old ++ field ∷ []) }
        ensures err { OnErr result (self.new ≡ self.old) }
    {
        self.fields.push(field)?;
        Ok(())
    }

    /// Makes original fields of them.
    pub fn make_original(&mut self)
        ensures { self.new ≡ map as_original self.old }
    {
        for field in self.fields.iter_mut() {
            field.added = false;
        }
    }

    pub fn as_slice(&self) -> &[FieldDef]
        ensures { result.now ≡ self.now }
    {
        self.fields.as_slice()
    }
}
