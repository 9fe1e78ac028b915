// How what the lines of a script get is told.
ghost use Rattle.std.specs.Prelude.{◌≡◌, ◌≤◌, [], ◌∷◌, ◌++◌, ℕ, List, length, vec_capacity, OnOk};
ghost use Rattle.rss_line.specs.Appends.{Appends};
ghost use Rattle.rss_lines.specs.Lines.{line_end};
ghost use Rattle.rss_model.specs.ReplyText.{answer_line};
ghost use Rattle.rss_model.specs.Script.{line_limit};
ghost use Rattle.rss_top.specs.Heard.{made_of};
ghost use Rattle.rss_top.specs.Manners.{IsEnough};
ghost use Rattle.rss_top.specs.Tellings.{Telling, IsTelling, told_by, echoed};

use crate::heard::Heard;
use crate::writing::make_room;
use rss_base::{Refusal, Reply};
use rss_line::{LINE_LIMIT, say};
use rss_lines::SCRIPT_BYTES;
use std::alloc::AllocError;

/// Tells what the lines of a script get.
pub trait Teller {
    /// How it is told.
    ghost telling: { Telling };

    /// What is remembered of the lines so far.
    ghost memory: { Self → telling.Memory };

    /// An empty text of this capacity has room for what is told of this line, whatever it gets.
    ghost has_room: { Self → List ℕ → ℕ → Type 0 };

    /// How many bytes of a line are looked at.
    fn keeps(&self) -> usize
        ensures some { 1 ≤ result }
        ensures enough { IsEnough (told_by telling) result };

    /// Empties the text, and makes room in it for what is told of the line.
    fn prepare(&mut self, line: &[u8], text: &mut Vec<u8>) -> Result<(), AllocError>
        ensures same { memory self.new ≡ memory self.old }
        ensures empty { text.new.items ≡ [] }
        ensures room { OnOk result (has_room self.new line.now (vec_capacity text.new)) };

    /// Puts what is told of the line into the text. Takes no memory.
    fn tell(&mut self, line: &[u8], heard: &Heard, text: &mut Vec<u8>)
        requires short { length (made_of heard.now).text ≤ line_limit }
        requires empty { text.old.items ≡ [] }
        requires room { has_room self.old line.now (vec_capacity text.old) }
        ensures told { text.new.items
            ≡ telling.told (memory self.old) line.now (made_of heard.now) }
        ensures after { memory self.new ≡ telling.after (memory self.old) (made_of heard.now) };

    /// What is told of lines is what is told of each, one after another.
    ghost is_telling: { IsTelling telling };
}

/// Appends the reply of a line, if it has one.
fn append_reply(heard: &Heard, text: &mut Vec<u8>) -> Result<(), AllocError>
    ensures { Appends (made_of heard.now).text text.old text.new result }
{
    match heard {
        Heard::Blank => Ok(()),
        Heard::NoCall => say(&Err(Refusal::Words), text),
        Heard::Called(_, answer) => say(answer, text),
    }
}

/// Appends a line with its end, and then the line of its answer.
fn append_told(
    line: &[u8],
    answer: &Result<Reply, Refusal>,
    text: &mut Vec<u8>,
) -> Result<(), AllocError>
    ensures { Appends (line.now ++ line_end ∷ answer_line answer.now) text.old text.new result }
{
    text.extend_from_slice(line)?;
    text.push(b'\n')?;
    say(answer, text)
}

/// Appends a line that isn't blank with its end, and then its reply.
fn append_echo(line: &[u8], heard: &Heard, text: &mut Vec<u8>) -> Result<(), AllocError>
    ensures { Appends (echoed line.now (made_of heard.now).text) text.old text.new result }
{
    match heard {
        Heard::Blank => Ok(()),
        Heard::NoCall => append_told(line, &Err(Refusal::Words), text),
        Heard::Called(_, answer) => append_told(line, answer, text),
    }
}

/// Tells only the replies.
#[derive(Drop)]
pub struct Plain;

impl Teller for Plain {
    ghost use Rattle.std.specs.Prelude.{◌≤◌};
    ghost use Rattle.rss_model.specs.Script.{line_limit};
    ghost use Rattle.rss_top.specs.Tellings.{plainly};
    ghost use Rattle.rss_top.specs.TellingLaws.{plainly_tells};

    ghost telling = { plainly };

    ghost memory = { λ teller. tt };

    ghost has_room = { λ teller line capacity. line_limit ≤ capacity };

    ghost is_telling = { plainly_tells };

    /// One byte more than a line may have, so that a line that is too long is known as such.
    fn keeps(&self) -> usize {
        LINE_LIMIT + 1
    }

    fn prepare(&mut self, line: &[u8], text: &mut Vec<u8>) -> Result<(), AllocError> {
        make_room(text)
    }

    fn tell(&mut self, line: &[u8], heard: &Heard, text: &mut Vec<u8>) {
        let Ok(()) = append_reply(heard, text) else {
            unreachable!()
        };
    }
}

/// Tells each line that isn't blank, with its end, and then its reply.
#[derive(Drop)]
pub struct Talk;

impl Teller for Talk {
    ghost use Rattle.std.specs.Prelude.{◌+◌, ◌≤◌, length};
    ghost use Rattle.rss_model.specs.Script.{line_limit};
    ghost use Rattle.rss_top.specs.Tellings.{talking};
    ghost use Rattle.rss_top.specs.TellingLaws.{talking_tells};

    ghost telling = { talking };

    ghost memory = { λ teller. tt };

    ghost has_room = { λ teller line capacity. length line + 1 + line_limit ≤ capacity };

    ghost is_telling = { talking_tells };

    /// All that a script may have, since the line is written whole.
    fn keeps(&self) -> usize {
        SCRIPT_BYTES
    }

    fn prepare(&mut self, line: &[u8], text: &mut Vec<u8>) -> Result<(), AllocError> {
        text.clear();
        text.reserve(line.len() + 1 + LINE_LIMIT)
    }

    fn tell(&mut self, line: &[u8], heard: &Heard, text: &mut Vec<u8>) {
        let Ok(()) = append_echo(line, heard, text) else {
            unreachable!()
        };
    }
}
