//! Nodes: what is said of the words of a room, and for each simulator in which local states it may be while that stays so.
ghost use Rattle.std.specs.Prelude.{◌≡◌, ◌<◌, true, length, map};
ghost use Rattle.room_search.specs.Nodes.{AreIn, IsBelow, Node as NodeValue, set_of};

use std::marker::Model;

/// The step by which a node was reached first: from the node of this index, by this simulator from the local state that has this
/// number in the table. The first node has none.
#[derive(Clone, Copy)]
pub struct Origin {
    pub from: u32,
    pub simulator: u8,
    pub number: u32,
}

/// Rooms of which the same is said: each simulator may be in each of some local states, whatever the others do.
#[derive(Drop)]
pub struct Node {
    /// For each word of the room the number after it, or 0 if nothing is said of it here.
    pub said: Vec<u64>,
    /// For each simulator the numbers of its local states.
    pub sets: Vec<Vec<u32>>,
    pub origin: Origin,
}

impl Model for Node {
    ghost use Rattle.std.specs.Prelude.{map};
    ghost use Rattle.room_search.specs.Nodes.{Node as NodeValue};

    ghost Value = { NodeValue };

    ghost view = { λ node. record { said = node.said.items; sets = map (λ set. set.items) node.sets.items } };
}

impl Node {
    pub fn new(said: Vec<u64>, sets: Vec<Vec<u32>>, origin: Origin) -> Node
        ensures said { result.said ≡ said.items }
        ensures sets { result.sets ≡ map (λ set. set.items) sets.items }
    {
        Node { said, sets, origin }
    }

    /// What it says of the words.
    pub fn said(&self) -> &Vec<u64>
        ensures { result.now.items ≡ self.now.said }
    {
        &self.said
    }

    /// The step by which it was reached first.
    pub fn origin(&self) -> Origin {
        self.origin
    }

    /// The numbers of the local states of simulator `i`.
    pub fn set(&self, i: usize) -> &[u32]
        requires { i < length self.now.sets }
        ensures { result.now ≡ set_of self.now i }
    {
        self.sets[i].as_slice()
    }

    /// How many simulators the room has.
    pub fn width(&self) -> usize
        ensures { result ≡ length self.now.sets }
    {
        self.sets.len()
    }

    /// Whether another node that says the same has all that this one has.
    pub fn is_below(&self, above: &Node) -> bool
        ensures { result ≡ true → IsBelow self.now above.now }
    {
        if self.said.as_slice() != above.said.as_slice() {
            return false;
        }
        if self.width() != above.width() {
            return false;
        }
        for i in 0..self.width() {
            if !is_within(self.set(i), above.set(i)) {
                return false;
            }
        }
        true
    }
}

/// Whether each of some numbers is among others.
fn is_within(some: &[u32], all: &[u32]) -> bool
    ensures { result ≡ true → AreIn some.now all.now }
{
    for number in some {
        if !all.contains(number) {
            return false;
        }
    }
    true
}
