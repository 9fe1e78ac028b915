// Names in a row.
ghost use Rattle.std.specs.Prelude.{◌≡◌, [], ◌∷◌, ◌++◌, IfOk, OnOk, OnErr};

use crate::Name;
use std::alloc::{AllocError, Global};
use std::marker::Model;

/// Names in their order, such as those of an image's fields.
#[derive(Debug, Drop)]
pub struct NameList {
    names: Vec<Name>,
}

impl Model for NameList {
    ghost use Rattle.std.specs.Prelude.{List};
    ghost use Rattle.rss_base.specs.declared.name.Name.{Name};

    ghost Value = { List Name };

    ghost view = { λ n. n.names.items };
}

impl NameList {
    /// No names; the list grows by this allocator.
    pub fn new(alloc: Global) -> Self
        ensures { result ≡ [] }
    {
        NameList {
            names: Vec::new(alloc),
        }
    }

    /// No names, with room for so many in one allocation.
    pub fn with_capacity(alloc: Global, names: usize) -> Result<Self, AllocError>
        ensures { IfOk result (λ names. names ≡ []) }
    {
        let names = Vec::with_capacity(alloc, names)?;
        Ok(NameList { names })
    }

    pub fn push(&mut self, name: Name) -> Result<(), AllocError>
        ensures ok { OnOk result (self.new ≡ self.old ++ name ∷ []) }
        ensures err { OnErr result (self.new ≡ self.old) }
    {
        self.names.push(name)?;
        Ok(())
    }

    pub fn as_slice(&self) -> &[Name]
        ensures { result.now ≡ self.now }
    {
        self.names.as_slice()
    }
}
