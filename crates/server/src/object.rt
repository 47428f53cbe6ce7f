// Where the locks of objects lie.
ghost use Rattle.std.specs.Prelude.{◌≡◌};
ghost use Rattle.server.specs.Object.{lock_of};

use crate::place::Place;
use nodes::object::Object;

// Where the lock of an object lies.
pub fn lock_place(object: Object) -> Place
    ensures { result ≡ lock_of object }
{
    match object {
        Object::Metadata => Place::MetadataLock,
        Object::Node(x) => Place::NodeLock(x.server() as usize, x.slot() as usize),
        Object::Flag(x) => Place::FlagLock(x.slot() as usize),
    }
}
