//! Tests of the wire's lower layers, by what their crates make public.
#![tactic(auto)]

#[cfg(test)]
mod layouts;
#[cfg(test)]
mod seat_loans;
#[cfg(test)]
mod seats;
#[cfg(test)]
mod word_places;
