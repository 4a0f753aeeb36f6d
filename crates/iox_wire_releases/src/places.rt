//! Where the ports of a handle stand in the plan's list.
ghost use Rattle.std.specs.Prelude.{◌≡◌, ◌==◌, ◌<◌, IfSome, None, length, position, true};
ghost use Rattle.iox_model.specs.declared.kind.Role.TheVariants.{Client, Server};
ghost use Rattle.iox_model.specs.Maps.{has_number};
ghost use Rattle.iox_word_places.specs.Plans.{IsLaneAt, IsPlan, IsPortAt, number_at, numbers_of};
ghost use Rattle.iox_word_places.specs.Plans.{sizes_of};

use iox_word_places::WordMap;

/// Where the port of that number stands.
pub fn place_of(map: &WordMap, number: u64) -> Option<usize>
    ensures first { result ≡ position (λ q. q.number == number) map.now.ports.items }
    ensures within { IfSome result (λ place. place < length map.now.ports.items) }
    ensures plan { IsPlan map.now }
{
    map.plan()
        .ports
        .iter()
        .position(|port| port.number == number)
}

/// Where the client of that number stands, which has that lane.
pub fn client_place(map: &WordMap, client: u64, lane: u64) -> usize
    requires client { has_number client (sizes_of map.now).clients ≡ true }
    requires lane { lane < (sizes_of map.now).lanes client }
    ensures there { IsLaneAt map.now result lane }
    ensures number { number_at map.now result ≡ client }
{
    match place_of(map, client) {
        Some(place) => place,
        None => unreachable!(),
    }
}

/// Where the server of that number stands.
pub fn server_place(map: &WordMap, server: u64) -> usize
    requires { has_number server (sizes_of map.now).servers ≡ true }
    ensures there { IsPortAt map.now Server result }
    ensures number { number_at map.now result ≡ server }
{
    match place_of(map, server) {
        Some(index) => index,
        None => unreachable!(),
    }
}
