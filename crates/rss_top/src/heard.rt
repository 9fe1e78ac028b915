// What a line of a script got.
use rss_base::{Call, Refusal, Reply};

/// What a line of a script got.
#[derive(Drop)]
pub enum Heard {
    /// It is blank, and gets nothing.
    Blank,
    /// It is no call.
    NoCall,
    /// It is a call, which got this answer.
    Called(Call, Result<Reply, Refusal>),
}
