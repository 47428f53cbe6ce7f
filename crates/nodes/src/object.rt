// Objects by value, and their numbers.
ghost use Rattle.std.specs.Prelude.{◌≡◌};
ghost use Rattle.nodes.specs.Object.{object_of, NumberOf};

use crate::name::Name;

// "Objects are the metadata, nodes and flags"
#[derive(Clone, Copy)]
pub enum Object {
    Metadata,
    Node(Name),
    Flag(Name),
}

impl From<u64> for Object {
    // The object with a number: numbers rise in the order of checking, "metadata, nodes by name, flags by name".
    fn from(number: u64) -> Object
        ensures value { result ≡ object_of number }
        ensures bounds { NumberOf result number }
    {
        if number == 0 {
            return Object::Metadata;
        }
        if number <= Name::END {
            return Object::Node(Name { number: number - 1 });
        }
        Object::Flag(Name {
            number: number - 1 - Name::END,
        })
    }
}
