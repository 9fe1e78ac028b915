// A line that has no answer yet.
use rss_base::Text;

/// A line that has no answer yet: the transaction whose it is, its number in the script, and its bytes.
#[derive(Drop)]
pub struct Held {
    pub owner: u32,
    pub number: u32,
    pub line: Text,
}
