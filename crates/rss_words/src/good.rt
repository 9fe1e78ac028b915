// Which words are a command.
ghost use Rattle.std.specs.Prelude.{◌≡◌, ◌↔◌, IsTrue, map, string_bytes};
ghost use Rattle.rss_words.specs.Words.{IsPlain, IsCommand, IsNumber, IsCount};

use crate::task::is_task;
use rss_line::{MOST_EMPLOYEES, read_number};

/// Whether the words are a command, the program's own name first.
pub fn are_good(words: &[String]) -> bool
    ensures { IsTrue result ↔ IsCommand (map string_bytes words.now) }
{
    match words {
        [_, name, file] => is_task(name.as_str()) && is_plain(file.as_str()),
        [_, name, number, count] => {
            name.as_str() == "gen" && (is_number(number.as_str()) && is_count(count.as_str()))
        }
        [_, name, file, first, second] => match name.as_str() {
            "format" => {
                is_plain(file.as_str()) && (is_number(first.as_str()) && is_number(second.as_str()))
            }
            "trial" => {
                is_plain(file.as_str()) && (is_number(first.as_str()) && is_count(second.as_str()))
            }
            _ => false,
        },
        _ => false,
    }
}

fn is_plain(word: &str) -> bool
    ensures { IsTrue result ↔ IsPlain word.now }
{
    match word.as_bytes() {
        [b'-', ..] => false,
        _ => true,
    }
}

fn is_number(word: &str) -> bool
    ensures { IsTrue result ↔ IsNumber word.now }
{
    read_number(word).is_some()
}

fn is_count(word: &str) -> bool
    ensures { IsTrue result ↔ IsCount word.now }
{
    match read_number(word) {
        Some(count) => 1 <= count && count <= u64::from(MOST_EMPLOYEES),
        None => false,
    }
}
