// The words of a line that is written.
ghost use Rattle.std.specs.Prelude.{◌≡◌, ◌≤◌, ◌==◌, not, [], ◌∷◌, decimal};
ghost use Rattle.std.specs.List.{prefix_len};
ghost use Rattle.rss_model.specs.Spellings.{name_text, tid_text};
ghost use Rattle.rss_line.specs.Appends.{Appends};
ghost use Rattle.rss_line.specs.Words.{with_words};

use itoa::Buffer;
use rss_base::{Name, Tid};
use std::alloc::AllocError;

#[derive(Drop)]
pub enum Word {
    Text(&'static str),
    Number(u64),
    Name(Name),
    Tid(Tid),
}

/// Appends a text, and then each word after a space.
pub fn append(text: &str, words: &[Word], into: &mut Vec<u8>) -> Result<(), AllocError>
    ensures { Appends (with_words text.now words.now) into.old into.new result }
{
    append_bytes(text.as_bytes(), into)?;
    append_words(words, into)?;
    Ok(())
}

fn append_words(words: &[Word], into: &mut Vec<u8>) -> Result<(), AllocError>
    ensures { Appends (with_words [] words.now) into.old into.new result }
{
    for word in words {
        append_word(word, into)?;
    }
    Ok(())
}

fn append_word(word: &Word, into: &mut Vec<u8>) -> Result<(), AllocError>
    ensures { Appends (with_words [] (word.now ∷ [])) into.old into.new result }
{
    into.push(b' ')?;
    match word {
        Word::Text(text) => append_bytes(text.as_bytes(), into)?,
        Word::Number(number) => append_number(*number, into)?,
        Word::Name(name) => append_bytes(bytes_of(name), into)?,
        Word::Tid(tid) => append_tid(*tid, into)?,
    }
    Ok(())
}

fn append_bytes(bytes: &[u8], into: &mut Vec<u8>) -> Result<(), AllocError>
    ensures { Appends bytes.now into.old into.new result }
{
    into.extend_from_slice(bytes)?;
    Ok(())
}

fn append_number(number: u64, into: &mut Vec<u8>) -> Result<(), AllocError>
    ensures { Appends (decimal number) into.old into.new result }
{
    let mut buffer = Buffer::new();
    append_bytes(buffer.format(number).as_bytes(), into)?;
    Ok(())
}

fn append_tid(tid: Tid, into: &mut Vec<u8>) -> Result<(), AllocError>
    ensures { Appends (tid_text tid) into.old into.new result }
{
    append_number(u64::from(tid.page), into)?;
    append_bytes(b".", into)?;
    append_number(u64::from(tid.slot), into)?;
    Ok(())
}

/// The bytes of a name before its zeros.
fn bytes_of(name: &Name) -> &[u8]
    ensures { result.now ≡ name_text name.now }
{
    &name.bytes[..length_of(name)]
}

fn length_of(name: &Name) -> usize
    ensures length { result ≡ prefix_len (λ b. not (b == 0)) name.now.bytes }
    ensures bound { result ≤ 16 }
{
    name.bytes.iter().take_while(|byte| **byte != 0).count()
}
