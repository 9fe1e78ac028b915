// The variables of a script.
ghost use Rattle.std.specs.Prelude.{◌≡◌, ◌≤◌, [], Some, Ok, OnOk, option_map};
ghost use Rattle.rss_model.specs.Variables.{meaning_of, Identifier, Number};
ghost use Rattle.rss_model.specs.Plays.{bound, meaning_in};
ghost use Rattle.rss_line.specs.Named.{meant};
ghost use Rattle.rss_line.specs.Reads.{ReadsAs};

use indexmap::IndexMap;
use rss_base::{Name, Reply, Tid};
use std::alloc::{AllocError, Global};
use std::marker::Model;

/// What a variable stands for.
#[derive(Clone, Copy)]
enum Meaning {
    Identifier(Tid),
    Number(u32),
}

/// What a reply has for a variable.
fn meaning_in(reply: &Reply) -> Option<Meaning>
    ensures { option_map meant result ≡ meaning_in (Ok reply.now) }
{
    match reply {
        Reply::Tid(tid) => Some(Meaning::Identifier(*tid)),
        Reply::Number(number) => Some(Meaning::Number(*number)),
        Reply::Ok | Reply::Tuple(_) | Reply::Row(..) | Reply::End | Reply::Nothing => None,
    }
}

/// What the variables of a script stand for: no one walks over all of them to find one.
#[derive(Drop)]
pub struct Names {
    meanings: IndexMap<Name, Meaning>,
}

impl Model for Names {
    ghost use Rattle.std.specs.HashMap.{spare};
    ghost use Rattle.rss_line.specs.Named.{Named, variables};

    ghost Value = { Named };

    ghost view = { λ n. record { variables = variables n.meanings.entries; room = spare n.meanings } };
}

impl Names {
    /// No variable stands for anything. Takes no memory.
    pub fn new(alloc: Global) -> Self
        ensures { result.variables ≡ [] }
    {
        Names {
            meanings: IndexMap::new(alloc),
        }
    }

    /// Makes room for one variable. A failure changes nothing.
    pub fn reserve(&mut self) -> Result<(), AllocError>
        ensures ok { OnOk result (1 ≤ self.new.room) }
        ensures same { self.new.variables ≡ self.old.variables }
    {
        self.meanings.reserve(1)
    }

    /// The variable stands for what the reply has, an identifier or a number, from now on. At every
    /// other reply it keeps what it had.
    pub fn bind(&mut self, variable: Name, reply: &Reply)
        requires { 1 ≤ self.old.room }
        ensures { self.new.variables
            ≡ bound self.old.variables (Some variable) (Ok reply.now) }
    {
        let Some(meaning) = meaning_in(reply) else {
            return;
        };
        let Ok(_) = self.meanings.insert(variable, meaning) else {
            unreachable!()
        };
    }

    /// The identifier that the variable stands for.
    pub(crate) fn tid(&self, variable: Name) -> Option<Tid>
        ensures { ReadsAs
            (λ tid. meaning_of self.now.variables variable ≡ Some (Identifier tid)) result }
    {
        match self.meanings.get(&variable)? {
            Meaning::Identifier(tid) => Some(*tid),
            Meaning::Number(_) => None,
        }
    }

    /// The number that the variable stands for.
    pub(crate) fn number(&self, variable: Name) -> Option<u32>
        ensures { ReadsAs
            (λ n. meaning_of self.now.variables variable ≡ Some (Number n)) result }
    {
        match self.meanings.get(&variable)? {
            Meaning::Identifier(_) => None,
            Meaning::Number(number) => Some(*number),
        }
    }
}
