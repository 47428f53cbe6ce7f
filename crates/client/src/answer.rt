// What a client has of an object.
// Here: in a set. Copied: a copy. Lacking: it is to be fetched.
#[derive(Clone, Copy)]
pub enum Have<T> {
    Here(T),
    Copied(T),
    Lacking,
}

// Of the metadata or a flag, its version and its value; of the metadata the servers' states too.
#[derive(Clone, Copy)]
pub struct Short {
    pub version: u64,
    pub value: u64,
    pub states: u64,
}
