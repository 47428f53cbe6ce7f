// What an insert or a delete makes of the leaf for its key, before anything is written.
use nodes::change::Wide;
use walk::down::Descent;

// The way down to the leaf, the leaf's new content, and the answer's a once it is written.
#[derive(Clone, Copy)]
pub struct Changed {
    pub way: Descent,
    pub content: Wide,
    pub a: u64,
}
