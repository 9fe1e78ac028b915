// A script whose lines are told.
ghost use Rattle.std.specs.Prelude.{◌≡◌, []};

use crate::Status;
use crate::driving::Driver;
use crate::line::tell_line;
use crate::telling::Teller;
use rss_base::Sink;
use rss_line::Names;
use rss_stored::Engine;
use std::alloc::Global;

/// Runs the lines of a script over an engine, each before the next, and tells what they get.
pub struct Scripted<E, T> {
    alloc: Global,
    engine: E,
    names: Names,
    teller: T,
    text: Vec<u8>,
}

impl<E, T> Scripted<E, T> {
    /// No variable stands for anything. Takes no memory.
    pub fn new(alloc: Global, engine: E, teller: T) -> Self
        ensures engine { result.engine ≡ engine }
        ensures names { result.names.variables ≡ [] }
        ensures teller { result.teller ≡ teller }
    {
        Scripted {
            alloc,
            engine,
            names: Names::new(alloc),
            teller,
            text: Vec::new(alloc),
        }
    }
}

impl<E, T: Drop> Scripted<E, T> {
    /// The engine, as the last line left it.
    pub fn into_engine(self) -> E
        ensures { result ≡ self.engine }
    {
        let Scripted {
            alloc: _,
            engine,
            names: _,
            teller: _,
            text: _,
        } = self;
        engine
    }
}

impl<E: Engine, T: Teller> Driver for Scripted<E, T> {
    ghost use Rattle.rss_top.specs.Lines.{told_over};
    ghost use Rattle.rss_top.specs.Tellings.{told_by};
    ghost use Rattle.rss_top.specs.TellingLaws.{told_sound};

    ghost manner = { told_by T.telling };

    ghost view = { λ s. told_over T.telling s.names.variables (T.memory s.teller) (E.view s.engine) };

    ghost opens = { λ s up told state shown. E.opens s.engine up told state shown };

    ghost sound = { told_sound T.telling T.is_telling };

    /// A line makes one call at most.
    ghost rate = { 1 };

    fn keeps(&self) -> usize {
        self.teller.keeps()
    }

    fn take<K: Sink>(&mut self, line: &[u8], sink: &mut K) -> Result<(), Status> {
        tell_line(
            &mut self.engine,
            self.alloc,
            &mut self.names,
            &mut self.teller,
            line,
            &mut self.text,
            sink,
        )
    }

    /// A line is told at once, so none is left to be run.
    fn go_on<K: Sink>(&mut self, sink: &mut K) -> Result<bool, Status> {
        Ok(false)
    }

    fn finish<K: Sink>(&mut self, sink: &mut K) -> Result<bool, Status> {
        Ok(false)
    }
}
