// The order in which servers are looked at for a new node's slot.
ghost use Rattle.std.specs.Prelude.{◌≡◌, ◌<◌, get_or};
ghost use Rattle.nodes.specs.Placement.{row};
ghost use Rattle.nodes.specs.Bounds.{most_servers};

const ROWS: [[u8; 8]; 8] = [
    [0, 1, 2, 3, 4, 5, 6, 7],
    [1, 0, 3, 2, 5, 4, 7, 6],
    [2, 3, 0, 1, 6, 7, 4, 5],
    [3, 2, 1, 0, 7, 6, 5, 4],
    [4, 5, 6, 7, 0, 1, 2, 3],
    [5, 4, 7, 6, 1, 0, 3, 2],
    [6, 7, 4, 5, 2, 3, 0, 1],
    [7, 6, 5, 4, 3, 2, 1, 0],
];

// The server that is looked at in turn i for a node of server s.
pub fn server_at(s: usize, i: usize) -> usize
    requires { (s < most_servers) × (i < most_servers) }
    ensures value { result ≡ get_or (row s) i 0 }
    ensures within { result < most_servers }
{
    ROWS[s][i] as usize
}
