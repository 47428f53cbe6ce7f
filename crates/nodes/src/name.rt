// The name of a node: its server and its slot there.
ghost use Rattle.std.specs.Prelude.{◌≡◌, ◌<◌};
ghost use Rattle.nodes.specs.Name.{name, server_of, slot_of, name_in_store};
ghost use Rattle.nodes.specs.Bounds.{end_of_names, end_of_slots, most_servers};

// "A node name is server times 1,024 plus slot."
#[derive(Clone, Copy)]
pub struct Name {
    pub number: u64,
}

impl Name {
    // "Servers 1 to 8, slots on each 1 to 1,024"
    pub const SERVERS: u64 = 8;

    pub const SLOTS: u64 = 1024;
    // names are below this number
    pub const END: u64 = Name::SERVERS * Name::SLOTS;

    // "A node name is server times 1,024 plus slot."
    pub fn new(server: u64, slot: u64) -> Name
        requires { (server < most_servers) × (slot < end_of_slots) }
        ensures number_value { result.number ≡ name server slot }
        ensures within { result.number < end_of_names }
    {
        Name {
            number: server * Name::SLOTS + slot,
        }
    }

    // The home server of a node of that name.
    pub fn server(self) -> u64
        ensures { result ≡ server_of self.number }
    {
        self.number / Name::SLOTS
    }

    pub fn slot(self) -> u64
        ensures value { result ≡ slot_of self.number }
        ensures within { result < end_of_slots }
    {
        self.number % Name::SLOTS
    }
}

// Is there a node of that name in a store of so many slots?
pub fn in_store(slots: usize, name: u64) -> bool
    ensures { result ≡ name_in_store slots name }
{
    let node = Name { number: name };
    node.server() < Name::SERVERS && (node.slot() as usize) < slots
}
