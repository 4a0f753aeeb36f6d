//! What a new loan takes of a desk.
ghost use Rattle.std.specs.Prelude.{◌≡◌, ◌==◌, position};
ghost use Rattle.std.specs.VecDeque.{deque_capacity};
ghost use Rattle.iox_model.specs.Maps.{without_number};

use super::StoredDesk;
use std::collections::VecDeque;

impl StoredDesk {
    ghost use Rattle.std.specs.Prelude.{◌≡◌, ◌∷◌, [], IfSome, None};
    ghost use Rattle.iox_wire_locals.specs.declared.table.NewLoan.{NewLoan};
    ghost use Rattle.iox_wire_locals.specs.Desks.{picks};

    /// A new loan with that serial takes the first free slot, and its lane. Without a free slot
    /// nothing changes.
    pub fn pick(&mut self, serial: u64, lane: u64) -> Option<u64>
        ensures first { IfSome result (λ slot. self.old.free ≡ slot ∷ self.new.free) }
        ensures picked { IfSome result (λ slot. (o : NewLoan) → o.serial ≡ serial → o.lane ≡ lane
            → self.new ≡ picks o slot self.new.free self.old) }
        ensures none { result ≡ None → self.old.free ≡ [] }
        ensures unchanged { result ≡ None → self.new ≡ self.old }
        ensures port { self.new.port ≡ self.old.port }
    {
        match self.free.pop_front() {
            Some(slot) => {
                let place = slot as usize;
                self.serials[place] = serial;
                self.uses[place] = 1;
                remove_number(&mut self.free_lanes, lane);
                Some(slot)
            }
            None => None,
        }
    }
}

/// Removes the first of these numbers that is that one.
fn remove_number(numbers: &mut VecDeque<u64>, number: u64)
    ensures items { numbers.new.items ≡ without_number number numbers.old.items }
    ensures capacity { deque_capacity numbers.new ≡ deque_capacity numbers.old }
{
    if let Some(place) = place_of(numbers, number) {
        numbers.remove(place);
    }
}

/// Where the first of these numbers stands that is that one.
fn place_of(numbers: &VecDeque<u64>, number: u64) -> Option<usize>
    ensures first { result ≡ position (λ held. held == number) numbers.now.items }
{
    numbers.iter().position(|held| *held == number)
}
