// "Servers 1 to 8, slots on each 1 to 1,024, clients 1 to 16." The servers are those that are open at first.
#[derive(Clone, Copy)]
pub struct Sizes {
    pub servers: usize,
    pub slots: usize,
    pub clients: usize,
}
