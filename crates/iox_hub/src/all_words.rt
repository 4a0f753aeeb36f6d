//! What the messages of all pools carry.
ghost use Rattle.std.specs.Prelude.{◌≡◌, ◌<◌, ◌∷◌, ◌++◌, [], None, OnOk, Some, false, length, slice_set, true};
ghost use Rattle.iox_hub.specs.Fits.{are_requests_in};
ghost use Rattle.iox_hub.specs.Making.{AreWordsPut};
ghost use Rattle.iox_hub.specs.Words.{carried, of_client};

use crate::words::PoolWords;
use iox_model::kind::Role;
use iox_store::Store;
use iox_words::Words;
use std::alloc::{AllocError, Global};
use std::marker::Model;

/// What the messages of all pools carry, by the places of these. In each place are requests or
/// responses, or neither: what is not carried there is empty.
#[derive(Drop)]
pub struct AllWords<QE: Words, QH: Words, PE: Words, PH: Words> {
    // Whose pool is in each place.
    pub(crate) roles: Vec<Option<Role>>,
    pub(crate) requests: Vec<Store<QE, QH>>,
    pub(crate) responses: Vec<Store<PE, PH>>,
    alloc: Global,
}

impl<QE: Words, QH: Words, PE: Words, PH: Words> Model for AllWords<QE, QH, PE, PH> {
    ghost use Rattle.std.specs.Prelude.{◌≡◌, length, min, vec_capacity};
    ghost use Rattle.iox_hub.specs.Words.{PoolsCarried, all_carried};

    ghost Value = { PoolsCarried };

    ghost view = { λ w. record {
      pools = all_carried w.roles.items w.requests.items w.responses.items;
      room = min (vec_capacity w.roles)
          (min (vec_capacity w.requests) (vec_capacity w.responses));
    } };

    ghost invariant = { λ w. (length w.requests.items ≡ length w.roles.items)
        × (length w.responses.items ≡ length w.roles.items) };
}

/// Whether a pool is a client's.
#[inline]
fn of_client(role: Option<Role>) -> bool
    ensures { result ≡ of_client role }
{
    match role {
        Some(Role::Client) => true,
        Some(Role::Server) | None => false,
    }
}

/// What is carried in this place goes.
fn empty<E: Words, H: Words>(stores: &mut Vec<Store<E, H>>, place: usize, alloc: Global)
    requires { place < length stores.old.items }
    ensures { stores.new.items ≡ slice_set stores.old.items place
        (record { longest = 0; messages = [] }) }
{
    stores[place] = Store::none(alloc);
}

impl<QE: Words, QH: Words, PE: Words, PH: Words> AllWords<QE, QH, PE, PH> {
    /// Nothing is carried.
    pub(crate) fn new(alloc: Global) -> Self
        ensures { result.pools ≡ [] }
    {
        AllWords {
            roles: Vec::new(alloc),
            requests: Vec::new(alloc),
            responses: Vec::new(alloc),
            alloc,
        }
    }

    /// Makes room for words in this place. The words that there are stay.
    pub(crate) fn make_room(&mut self, place: usize) -> Result<(), AllocError>
        ensures room { OnOk result (place < self.new.room) }
        ensures unchanged { self.new.pools ≡ self.old.pools }
    {
        let Some(more) = place.saturating_sub(self.roles.len()).checked_add(1) else {
            return Err(AllocError);
        };
        self.roles.reserve(more)?;
        self.requests.reserve(more)?;
        self.responses.reserve(more)
    }

    /// For how many places it says what is carried.
    #[inline]
    fn len(&self) -> usize
        ensures { result ≡ length self.now.pools }
    {
        self.roles.len()
    }

    /// Whether requests are carried in this place.
    #[inline]
    pub(crate) fn are_requests(&self, place: usize) -> bool
        requires { place < length self.now.pools }
        ensures { result ≡ are_requests_in self.now.pools place }
    {
        of_client(self.roles[place])
    }

    /// There is a place more, which carries nothing.
    fn push_none(&mut self)
        requires { length self.old.pools < self.old.room }
        ensures pools { self.new.pools ≡ self.old.pools ++ None ∷ [] }
        ensures room { self.new.room ≡ self.old.room }
    {
        self.roles.push_reserved(None);
        self.requests.push_reserved(Store::none(self.alloc));
        self.responses.push_reserved(Store::none(self.alloc));
    }

    /// These requests are carried in this place.
    fn set_requests(&mut self, place: usize, requests: Store<QE, QH>)
        requires { place < length self.old.pools }
        ensures { self.new.pools ≡ slice_set self.old.pools place
            (Some (record { requests = true; contents = requests })) }
    {
        self.roles[place] = Some(Role::Client);
        self.requests[place] = requests;
    }

    /// These responses are carried in this place.
    fn set_responses(&mut self, place: usize, responses: Store<PE, PH>)
        requires { place < length self.old.pools }
        ensures { self.new.pools ≡ slice_set self.old.pools place
            (Some (record { requests = false; contents = responses })) }
    {
        self.roles[place] = Some(Role::Server);
        self.responses[place] = responses;
    }

    /// Puts words in this place, for which there is room.
    pub(crate) fn put(&mut self, place: usize, new: PoolWords<QE, QH, PE, PH>)
        requires { place < self.old.room }
        ensures { AreWordsPut self.old.pools place (carried new) self.new.pools }
    {
        while self.len() <= place {
            self.push_none();
        }
        match new {
            PoolWords::Requests(store) => self.set_requests(place, store),
            PoolWords::Responses(store) => self.set_responses(place, store),
        }
    }

    /// The words in this place go.
    pub(crate) fn vacate(&mut self, place: usize)
        ensures { self.new.pools ≡ slice_set self.old.pools place None }
    {
        if place < self.roles.len() {
            self.roles[place] = None;
            empty(&mut self.requests, place, self.alloc);
            empty(&mut self.responses, place, self.alloc);
        }
    }
}
