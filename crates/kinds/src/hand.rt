// What a fetch hands over: the copies in use become read items, and then the object fetched.
ghost use Rattle.std.specs.Prelude.{◌<◌, length};
ghost use Rattle.client.specs.Lent.{InUse};
ghost use Rattle.client.specs.Fetched.{fetched_meta, fetched_node, fetched_vector};
ghost use Rattle.kinds.specs.Parts.{AtClient};
ghost use Rattle.client.specs.Layout.{ClientPart};
ghost use Rattle.client.specs.Bounds.{most_servers, end_of_names};
ghost use Rattle.kinds.specs.Lack.{Takes, TakesIn};

use crate::whole::client_at;
use client::enter::enter_used;
use client::fetched::{fetched_meta, fetched_node, fetched_vector};
use nodes::node::Node;
use server::hand_out::Metadata;
use steps::sizes::Sizes;

fn enter_meta(part: &mut [u8], used: &[u64], m: Metadata)
    requires { InUse used.now × ClientPart part.old }
    ensures { Takes used (fetched_meta m.root m.states m.version) part }
{
    enter_used(part, used);
    fetched_meta(part, m.root, m.states, m.version);
}

fn enter_node(part: &mut [u8], used: &[u64], name: u64, n: Node)
    requires { InUse used.now × (name < end_of_names) × ClientPart part.old }
    ensures { Takes used (fetched_node name n) part }
{
    enter_used(part, used);
    fetched_node(part, name, n);
}

fn enter_vector(part: &mut [u8], used: &[u64], s: usize, words: [u64; 16])
    requires { InUse used.now × (s < most_servers) × ClientPart part.old }
    ensures { Takes used (fetched_vector s words) part }
{
    enter_used(part, used);
    fetched_vector(part, s, words);
}

pub fn store_meta(mem: &mut [u8], sizes: Sizes, client: usize, used: &[u64], m: Metadata)
    requires { AtClient sizes (length mem.old) client × InUse used.now }
    ensures { TakesIn sizes client used (fetched_meta m.root m.states m.version) mem }
{
    let at = 8 * client_at(sizes, client);
    enter_meta(&mut mem[at..], used, m);
}

pub fn store_node(mem: &mut [u8], sizes: Sizes, client: usize, used: &[u64], name: u64, n: Node)
    requires { AtClient sizes (length mem.old) client × InUse used.now × (name < end_of_names) }
    ensures { TakesIn sizes client used (fetched_node name n) mem }
{
    let at = 8 * client_at(sizes, client);
    enter_node(&mut mem[at..], used, name, n);
}

pub fn store_vector(
    mem: &mut [u8],
    sizes: Sizes,
    client: usize,
    used: &[u64],
    s: usize,
    words: [u64; 16],
)
    requires { AtClient sizes (length mem.old) client × InUse used.now × (s < most_servers) }
    ensures { TakesIn sizes client used (fetched_vector s words) mem }
{
    let at = 8 * client_at(sizes, client);
    enter_vector(&mut mem[at..], used, s, words);
}
