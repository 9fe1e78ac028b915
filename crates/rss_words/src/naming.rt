// What is found of good words without their being parsed.
ghost use Rattle.std.specs.Prelude.{List, ℕ, map, string_bytes, IfSome, IfNone};
ghost use Rattle.rss_words.specs.Words.{AreFormat, IsFileOf};

use crate::good::are_good;
use rss_line::read_number;

/// The file that the words name, the program's own name first. Words that are no command name none.
pub fn file_word(words: &[String]) -> Option<&str>
    ensures file { IfSome result (λ file. IsFileOf (map string_bytes words.now) file.now) }
    ensures none { IfNone result ((file : List ℕ)
        → IsFileOf (map string_bytes words.now) file → ⊥) }
{
    if !are_good(words) {
        return None;
    }
    match words {
        [_, _, file] => Some(file.as_str()),
        [_, _, file, _, _] => Some(file.as_str()),
        _ => None,
    }
}

/// The slots and log pages that the words ask for, if they are a format.
pub fn format_sizes(words: &[String]) -> Option<(u64, u64)>
    ensures sizes { IfSome result (λ sizes.
        AreFormat (map string_bytes words.now) sizes.0 sizes.1) }
    ensures none { IfNone result ((slots log_pages : ℕ)
        → AreFormat (map string_bytes words.now) slots log_pages → ⊥) }
{
    if !are_good(words) {
        return None;
    }
    match words {
        [_, name, _, slots, log_pages] if name.as_str() == "format" => {
            let slots = read_number(slots.as_str())?;
            let log_pages = read_number(log_pages.as_str())?;
            Some((slots, log_pages))
        }
        _ => None,
    }
}
