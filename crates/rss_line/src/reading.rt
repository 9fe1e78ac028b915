// Reading a line of a script.
ghost use Rattle.std.specs.Prelude.{◌≡◌, Option, Ok, IfOk, IsErrOf};
ghost use Rattle.rss_base.specs.declared.call.Call.{Call};
ghost use Rattle.rss_base.specs.declared.name.Name.{Name};
ghost use Rattle.rss_model.specs.Forms.{Spells, IsBlank, IsWords};

use crate::reader::Reader;
use crate::{LineFault, Names};
use rss_base::{Call, Name};
use std::alloc::Global;

/// What a line of a script is.
#[derive(Debug, Drop)]
pub enum Line {
    Blank,
    /// A call, and the variable that is to stand for its reply, if the line has one.
    Call { bind: Option<Name>, call: Call },
}

/// At most so many bytes of a line, without its end.
pub const LINE_LIMIT: usize = 8192;

/// Reads a line, without its end, with variables that stand for these things.
pub fn read_line(alloc: Global, line: &[u8], names: &Names) -> Result<Line, LineFault>
    ensures blank { result ≡ Ok Line.Blank → IsBlank line.now }
    ensures call { (bind : Option Name) (call : Call)
        → result ≡ Ok (Line.Call bind call) → Spells names.now.variables line.now bind call }
    ensures words { IsErrOf result LineFault.Words → IsWords names.now.variables line.now }
    ensures only { (bind : Option Name) (call : Call)
        → Spells names.now.variables line.now bind call
        → IfOk result (λ read. read ≡ Line.Call bind call) }
{
    if line.len() > LINE_LIMIT {
        return Err(LineFault::Words);
    }
    let mut reader = Reader::new(line);
    if reader.is_empty() {
        return Ok(Line::Blank);
    }
    let (bind, call) = reader.statement(alloc, names)?;
    Ok(Line::Call { bind, call })
}
