// What begins and checkpoints do.
ghost use Rattle.std.specs.Prelude.{◌≡◌, [], IfOk, OnErr, OnOk};
ghost use Rattle.std.specs.FinMap.{insert};
ghost use Rattle.rss_base.specs.declared.call.Call.TheVariants.{Begin, Checkpoint};
ghost use Rattle.rss_plain.specs.Making.{Makes};
ghost use Rattle.rss_plain.specs.View.{view};

use crate::changes::Saves;
use crate::plain::Plain;
use rss_base::{Refusal, Reply};
use std::alloc::AllocError;

impl Plain {
    /// Begins a transaction. Want of memory changes nothing.
    pub fn begin(&mut self, t: u32) -> Result<Result<Reply, Refusal>, AllocError>
        ensures makes { IfOk result (λ answer. Makes (view self.old) (Begin t) answer (view self.new)) }
        ensures same { OnErr result (view self.new ≡ view self.old) }
    {
        if let Some(why) = self.judge_begin(t) {
            return Ok(Err(why));
        }
        self.open_transaction(t)?;
        Ok(Ok(Reply::Ok))
    }

    /// Takes a checkpoint, of which nothing is seen.
    pub fn checkpoint(&self) -> Reply
        ensures { Makes (view self.now) Checkpoint (Ok result) (view self.now) }
    {
        Reply::Ok
    }

    fn open_transaction(&mut self, t: u32) -> Result<(), AllocError>
        ensures ok { OnOk result (view self.new
            ≡ record (view self.old) { marks = insert (view self.old).marks t [] }) }
        ensures err { OnErr result (view self.new ≡ view self.old) }
    {
        let counts = Vec::new(self.alloc);
        self.marks.put(t, Saves { counts })
    }
}
