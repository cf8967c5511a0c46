// A list of records of eight bytes, as many as a job holds.
ghost use Rattle.std.specs.Prelude.{◌≡◌, ℕ, ◌+◌, ◌*◌, ◌/◌, ◌≤◌, ◌<◌, ◌++◌, ◌↔◌, List, [], ◌∷◌, length, IsTrue};
ghost use Rattle.std.specs.List.{flat_map};
ghost use Rattle.stored.specs.Bytes.{digit};

use arrayvec::ArrayVec;
use std::marker::Model;

const MOST: usize = 504;

#[derive(Drop)]
pub struct Records {
    list: ArrayVec<[u8; 8], MOST>,
}

impl Model for Records {
    ghost Value = { List ℕ };

    ghost view = { λ r. flat_map (λ x. x) r.list.items };

    ghost invariant = { λ r. length (flat_map (λ x. x) r.list.items) ≡ 8 * length r.list.items };
}

impl Records {
    pub fn new() -> Records
        ensures { result ≡ [] }
    {
        Records {
            list: ArrayVec::new(),
        }
    }

    pub fn count(&self) -> usize
        ensures { (8 * result ≡ length self.now) × (result ≤ 504) }
    {
        self.list.len()
    }

    pub fn has_room(&self, more: usize) -> bool
        requires { more ≤ 65536 }
        ensures { IsTrue result ↔ (length self.now / 8 + more ≤ 504) }
    {
        self.list.len() + more <= MOST
    }

    pub fn push(&mut self, next: [u8; 8])
        requires { length self.old < 4032 }
        ensures { self.new ≡ self.old ++ next }
    {
        self.list.push(next);
    }

    pub fn bytes(&self) -> &[u8]
        ensures { result.now ≡ self.now }
    {
        self.list.as_slice().as_flattened()
    }
}

// A number's two low bytes, the lower first.
pub fn two_bytes(x: usize) -> [u8; 2]
    ensures { result ≡ digit x 0 ∷ digit x 1 ∷ [] }
{
    let [low, high, ..] = x.to_le_bytes();
    [low, high]
}
