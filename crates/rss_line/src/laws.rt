// The law of lines.
ghost use Rattle.rss_line.specs.Once.{LinesSpellOnce};

/// Under given variables a line spells one call at most, for one variable or for none.
pub fn lines_spell_once()
    ensures { LinesSpellOnce }
{}
