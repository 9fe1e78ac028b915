// Which modes agree, and which one two of them make together.
ghost use Rattle.std.specs.Prelude.{◌≡◌, ◌↔◌, Some, IsTrue};
ghost use Rattle.rss_model.specs.Locks.{disagree, joined, with_mode};

use rss_base::Mode;

/// Whether two transactions can't hold an item in these modes.
pub(crate) fn disagree(held: Mode, needed: Mode) -> bool
    ensures { result ≡ disagree held needed }
{
    match held {
        Mode::IS => needed == Mode::X,
        Mode::IX => !matches!(needed, Mode::IS | Mode::IX),
        Mode::S => !matches!(needed, Mode::IS | Mode::S),
        Mode::SIX => needed != Mode::IS,
        Mode::X => true,
    }
}

/// The least mode that is both.
fn joined(held: Mode, needed: Mode) -> Mode
    ensures { result ≡ joined held needed }
{
    match (held, needed) {
        (Mode::IS, mode) | (mode, Mode::IS) => mode,
        (Mode::X, _) | (_, Mode::X) => Mode::X,
        (Mode::IX, Mode::IX) => Mode::IX,
        (Mode::S, Mode::S) => Mode::S,
        _ => Mode::SIX,
    }
}

/// The mode that is needed, joined with the one that is held, if any.
pub(crate) fn with_mode(held: Option<Mode>, needed: Mode) -> Mode
    ensures { result ≡ with_mode held needed }
{
    match held {
        Some(held) => joined(held, needed),
        None => needed,
    }
}

/// Whether a transaction that holds this mode, if any, has the one that is needed with it.
pub(crate) fn covers(held: Option<Mode>, needed: Mode) -> bool
    ensures { IsTrue result ↔ (held ≡ Some (with_mode held needed)) }
{
    match held {
        Some(held) => joined(held, needed) == held,
        None => false,
    }
}
