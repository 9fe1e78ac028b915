// What is done with a script and the store of a file.
ghost use Rattle.std.specs.Prelude.{◌≡◌, ◌↔◌, IsTrue, IfSome, IfNone};
ghost use Rattle.rss_words.specs.Words.{task_name, IsTask};

/// How a script is run over the store of a file.
#[derive(Clone, Copy, Debug, PartialEq, Eq)]
pub enum Task {
    /// Its replies are written.
    Run,
    /// Each line that isn't blank is written, and then its reply.
    Talk,
}

impl Task {
    /// The task of a word.
    pub(crate) fn named(name: &str) -> Option<Self>
        ensures some { IfSome result (λ task. name.now ≡ task_name task) }
        ensures none { IfNone result (IsTask name.now → ⊥) }
    {
        match name {
            "run" => Some(Task::Run),
            "talk" => Some(Task::Talk),
            _ => None,
        }
    }
}

/// Whether a word is a task's.
pub(crate) fn is_task(name: &str) -> bool
    ensures { IsTrue result ↔ IsTask name.now }
{
    Task::named(name).is_some()
}
