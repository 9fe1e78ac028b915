// Replies, counted.
ghost use Rattle.std.specs.Prelude.{◌≡◌, ◌+◌, ◌^◌, ◌<◌, ◌≤◌, [], ◌∷◌, length};
ghost use Rattle.rss_top.specs.Trial.{is_refusal, refusals, IsTally};

use rss_lines::end_of_line;

/// How many replies there are: those that begin with `refused`, and the others.
#[derive(Clone, Copy)]
pub struct Tally {
    pub ok: u64,
    pub refused: u64,
}

/// Whether a reply is a refusal.
fn is_refusal(line: &[u8]) -> bool
    ensures { result ≡ is_refusal line.now }
{
    line.starts_with(b"refused")
}

impl Tally {
    /// Counts a reply.
    fn add(&mut self, line: &[u8])
        requires { self.old.ok + self.old.refused + 1 < 2 ^ 64 }
        ensures all { self.new.ok + self.new.refused ≡ self.old.ok + self.old.refused + 1 }
        ensures some { self.new.refused ≡ self.old.refused + refusals (line.now ∷ []) }
    {
        if is_refusal(line) {
            self.refused += 1;
        } else {
            self.ok += 1;
        }
    }
}

/// Counts the replies of a text.
pub fn count_replies(text: &[u8]) -> Tally
    ensures tally { IsTally text.now result.ok result.refused }
    ensures few { result.ok + result.refused ≤ length text.now }
{
    let mut tally = Tally { ok: 0, refused: 0 };
    let mut done = 0;
    while let Some(at) = end_of_line(&text[done..]) {
        tally.add(&text[done..done + at]);
        done += at + 1;
    }
    if done < text.len() {
        tally.add(&text[done..]);
    }
    tally
}
