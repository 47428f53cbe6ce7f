// "The map is pairs by rising key": an array of which a count is used, and what each operation answers on it.
ghost use Rattle.std.specs.Prelude.{◌≡◌, ◌<◌, ◌≤◌, length};
ghost use Rattle.std.specs.List.Sorted.{IsSearchInRange};

use crate::rng::shuffled;
use crate::step::Operation;

#[derive(Clone, Copy)]
struct Pair {
    key: u64,
    value: u64,
}

// The pairs. While there are none, the first of the array still has the key that was there last.
#[derive(Drop)]
pub struct Map {
    pairs: [Pair; 4096],
    count: usize,
    pub ghost in_array: { count ≤ 4096 },
}

// What an operation answers. Of a list b stands for its pairs.
#[derive(Clone, Copy, PartialEq, Eq)]
pub struct Answer {
    pub a: u64,
    pub b: u64,
}

// A number that was found, or none.
impl From<Option<u64>> for Answer {
    fn from(found: Option<u64>) -> Answer {
        Answer {
            a: found.is_some() as u64,
            b: found.unwrap_or(0),
        }
    }
}

// A number that stands for some pairs, with one more: two lists hardly share it.
pub fn with_pair(sum: u64, key: u64, value: u64) -> u64 {
    let keyed = shuffled(sum.wrapping_add(key));
    shuffled(keyed.wrapping_add(value))
}

impl Map {
    pub fn new() -> Map {
        Map {
            pairs: [Pair { key: 0, value: 0 }; 4096],
            count: 0,
        }
    }

    pub fn len(&self) -> usize
        ensures { result ≤ 4096 }
    {
        self.count
    }

    fn used(&self) -> &[Pair]
        ensures { length result.now ≡ self.now.count }
    {
        &self.pairs[..self.count]
    }

    // The key at a place from 0, by rising key; past them the first.
    pub fn key_at(&self, place: usize) -> u64 {
        let at = if place < self.count { place } else { 0 };
        self.pairs[at].key
    }

    // Where a key is, or where it would be put.
    fn search(&self, key: u64) -> Result<usize, usize>
        ensures { IsSearchInRange result self.now.count }
    {
        self.used().binary_search_by_key(&key, |pair| pair.key)
    }

    // "up to a given count of pairs .., from the given key upward": a is their number.
    fn list(&self, key: u64, wanted: u64) -> Answer {
        let used = self.used();
        let first = used.partition_point(|pair| pair.key < key);
        let mut answer = Answer { a: 0, b: 0 };
        for pair in &used[first..] {
            if answer.a == wanted {
                return answer;
            }
            answer = Answer {
                a: answer.a.wrapping_add(1),
                b: with_pair(answer.b, pair.key, pair.value),
            };
        }
        answer
    }

    // "Next and previous: a 1, b the nearest key strictly above or below, if any."
    fn next(&self, key: u64) -> Answer {
        let used = self.used();
        let above = used.partition_point(|pair| pair.key <= key);
        Answer::from(used.get(above).map(|pair| pair.key))
    }

    fn previous(&self, key: u64) -> Answer {
        let used = self.used();
        let below = used.partition_point(|pair| pair.key < key);
        Answer::from(used[..below].last().map(|pair| pair.key))
    }

    // The pairs from a place on go up by one, and this one comes to stand there. A map that is full stays as it is.
    fn put_in(&mut self, at: usize, pair: Pair)
        requires { at ≤ self.old.count }
    {
        if self.count == self.pairs.len() {
            return;
        }
        self.pairs.copy_within(at..self.count, at + 1);
        self.pairs[at] = pair;
        self.count += 1;
    }

    // The pair at a place goes, and those above it come down by one.
    fn take_out(&mut self, at: usize)
        requires { at < self.old.count }
    {
        self.pairs.copy_within(at + 1..self.count, at);
        self.count -= 1;
    }

    // "Insert sets the key's value; a is 1 if it was absent."
    fn insert(&mut self, key: u64, value: u64) -> Answer {
        match self.search(key) {
            Ok(at) => {
                self.pairs[at].value = value;
                Answer { a: 0, b: 0 }
            }
            Err(at) => {
                self.put_in(at, Pair { key, value });
                Answer { a: 1, b: 0 }
            }
        }
    }

    // "Lookup of a key there: a 1, b the value."
    fn lookup(&self, key: u64) -> Answer {
        match self.search(key) {
            Ok(at) => Answer {
                a: 1,
                b: self.pairs[at].value,
            },
            Err(_) => Answer { a: 0, b: 0 },
        }
    }

    // "Delete removes the key; a is 1 if it was there."
    fn delete(&mut self, key: u64) -> Answer {
        match self.search(key) {
            Ok(at) => {
                self.take_out(at);
                Answer { a: 1, b: 0 }
            }
            Err(_) => Answer { a: 0, b: 0 },
        }
    }

    // An operation. Migrate's answer isn't compared.
    pub fn operate(&mut self, operation: Operation, key: u64, value: u64) -> Option<Answer> {
        match operation {
            Operation::Insert => Some(self.insert(key, value)),
            Operation::Lookup => Some(self.lookup(key)),
            Operation::Delete => Some(self.delete(key)),
            Operation::Next => Some(self.next(key)),
            Operation::Previous => Some(self.previous(key)),
            Operation::Migrate => None,
            Operation::List => Some(self.list(key, value)),
        }
    }
}
