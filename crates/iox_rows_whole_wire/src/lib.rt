//! Tests of a whole wire, by what its crate makes public.
#![tactic(auto)]

#[cfg(test)]
mod allowed;
#[cfg(test)]
mod answers;
#[cfg(test)]
mod between;
#[cfg(test)]
mod chances;
#[cfg(test)]
mod client_stops;
#[cfg(test)]
mod counts;
#[cfg(test)]
mod deaths;
#[cfg(test)]
mod delivered;
#[cfg(test)]
mod events;
#[cfg(test)]
mod expected;
#[cfg(test)]
mod four;
#[cfg(test)]
mod games;
#[cfg(test)]
mod kinds_of_replies;
#[cfg(test)]
mod lists;
#[cfg(test)]
mod on;
#[cfg(test)]
mod plan_rows;
#[cfg(test)]
mod play;
#[cfg(test)]
mod replies;
#[cfg(test)]
mod rows;
#[cfg(test)]
mod schedules;
#[cfg(test)]
mod server_stops;
#[cfg(test)]
mod settings;
#[cfg(test)]
mod stops;
#[cfg(test)]
mod stops_among_three;
#[cfg(test)]
mod stops_among_words;
#[cfg(test)]
mod stops_of_refused;
#[cfg(test)]
mod stops_of_refused_sends;
#[cfg(test)]
mod stops_of_releases;
#[cfg(test)]
mod stops_of_sends;
#[cfg(test)]
mod stops_on_other_wires;
#[cfg(test)]
mod stops_on_returns;
#[cfg(test)]
mod told;
#[cfg(test)]
mod two_servers;
#[cfg(test)]
mod units;
#[cfg(test)]
mod unnamed;
#[cfg(test)]
mod unserved;
#[cfg(test)]
mod whole_calls;
#[cfg(test)]
mod wide;
#[cfg(test)]
mod wires;
