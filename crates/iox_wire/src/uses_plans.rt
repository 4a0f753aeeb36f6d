//! Callers who make a wire, or ask whether one is made, proved only from the clauses of that.
ghost use Rattle.std.specs.Prelude.{◌≡◌, ◌^◌, IfErr, IfOk, IsTrue, None, OnOk, Some};
ghost use Rattle.iox_model.specs.States.{State};
ghost use Rattle.iox_word_map.specs.WordMaps.{total_words};
ghost use Rattle.iox_wire_weaves.specs.Plans.{IsPlan, sizes_of};
ghost use Rattle.iox_wire_weaves.specs.Tables.{Setting};
ghost use Rattle.iox_wire_weaves.specs.Wires.{AreWhole, WireOpensOn, ShowsOpened};
ghost use Rattle.iox_wire.specs.NewRefusals.{AreNamed, FitsService, SuitsWire, new_refusal};
ghost use Rattle.iox_wire.specs.declared.new_error.WireNewError.TheVariants as new_errors;

use crate::new_error::WireNewError;
use crate::opening::{have_layouts, new_refusal};
use crate::wire::Wire;
use iox_wire_weaves::{WirePlan, WireTerms};
use std::alloc::Global;

/// A wire for these nodes that is not too large, and has numbers left, wants nothing but memory.
pub fn wire_that_fits(
    alloc: Global,
    plan: WirePlan,
    terms: WireTerms,
    nodes: &[u64],
) -> Result<Wire, WireNewError>
    requires plan { IsPlan plan }
    requires whole { AreWhole plan terms }
    requires fits { new_refusal plan terms nodes.now ≡ None }
    requires opens { (p : Setting) × (s : State) × WireOpensOn plan terms nodes.now p s }
    ensures opened { (p : Setting) → (s : State) → WireOpensOn plan terms nodes.now p s
        → IfOk result (ShowsOpened p s) }
    ensures refused { IfErr result (λ error. error ≡ new_errors.WantOfMemory) }
{
    Wire::new(alloc, plan, terms, nodes)
}

/// One of 2^63 words is refused by name, whatever memory there is. No service is asked for.
pub fn wire_of_too_many_words(
    alloc: Global,
    plan: WirePlan,
    terms: WireTerms,
    nodes: &[u64],
) -> Result<Wire, WireNewError>
    requires plan { IsPlan plan }
    requires whole { AreWhole plan terms }
    requires many { total_words (sizes_of plan) ≡ 2 ^ 63 }
    ensures refused { IfErr result (λ error. error ≡ new_errors.TooManyWords) }
    ensures always { OnOk result ⊥ }
{
    Wire::new(alloc, plan, terms, nodes)
}

/// So is one that would number its first handles 2^63.
pub fn wire_without_numbers(
    alloc: Global,
    plan: WirePlan,
    terms: WireTerms,
    nodes: &[u64],
) -> Result<Wire, WireNewError>
    requires plan { IsPlan plan }
    requires whole { AreWhole plan terms }
    requires few { total_words (sizes_of plan) ≡ 165 }
    requires spent { terms.first_number ≡ 2 ^ 63 }
    ensures refused { IfErr result (λ error. error ≡ new_errors.NumbersSpent) }
    ensures always { OnOk result ⊥ }
{
    Wire::new(alloc, plan, terms, nodes)
}

/// A node that is listed twice is refused by name.
pub fn wire_of_a_node_twice(
    alloc: Global,
    plan: WirePlan,
    terms: WireTerms,
) -> Result<Wire, WireNewError>
    requires plan { IsPlan plan }
    requires whole { AreWhole plan terms }
    requires few { total_words (sizes_of plan) ≡ 165 }
    requires first { terms.first_number ≡ 2 }
    ensures refused { IfErr result (λ error. error ≡ new_errors.DuplicateNode) }
    ensures always { OnOk result ⊥ }
{
    Wire::new(alloc, plan, terms, &[0, 0])
}

/// So are, by some name, nodes and ports that are not named well. No service is asked for.
pub fn wire_that_is_not_named(
    alloc: Global,
    plan: WirePlan,
    terms: WireTerms,
    nodes: &[u64],
) -> Result<Wire, WireNewError>
    requires plan { IsPlan plan }
    requires whole { AreWhole plan terms }
    requires unnamed { AreNamed plan terms nodes.now → ⊥ }
    ensures always { OnOk result ⊥ }
{
    Wire::new(alloc, plan, terms, nodes)
}

/// So are messages that do not suit a wire.
pub fn wire_that_messages_do_not_suit(
    alloc: Global,
    plan: WirePlan,
    terms: WireTerms,
    nodes: &[u64],
) -> Result<Wire, WireNewError>
    requires plan { IsPlan plan }
    requires whole { AreWhole plan terms }
    requires unsuited { SuitsWire plan → ⊥ }
    ensures always { OnOk result ⊥ }
{
    Wire::new(alloc, plan, terms, nodes)
}

/// So are ports and limits that no service has.
pub fn wire_that_no_service_has(
    alloc: Global,
    plan: WirePlan,
    terms: WireTerms,
    nodes: &[u64],
) -> Result<Wire, WireNewError>
    requires plan { IsPlan plan }
    requires whole { AreWhole plan terms }
    requires unfit { FitsService plan terms → ⊥ }
    ensures always { OnOk result ⊥ }
{
    Wire::new(alloc, plan, terms, nodes)
}

/// Where a wire may open with a plan, each message has a layout.
pub fn messages_have_layouts(plan: &WirePlan, terms: &WireTerms, nodes: &[u64]) -> bool
    requires plan { IsPlan plan.now }
    requires opens { (p : Setting) × (s : State) × WireOpensOn plan.now terms.now nodes.now p s }
    ensures { IsTrue result }
{
    have_layouts(plan)
}

/// And no wire is refused for its messages, nor for its ports and limits.
pub fn refusal_where_a_wire_may_open(
    plan: &WirePlan,
    terms: &WireTerms,
    nodes: &[u64],
) -> Option<WireNewError>
    requires plan { IsPlan plan.now }
    requires opens { (p : Setting) × (s : State) × WireOpensOn plan.now terms.now nodes.now p s }
    ensures header { result ≡ Some new_errors.WrongHeader → ⊥ }
    ensures alignment { result ≡ Some new_errors.UnsuitableAlignment → ⊥ }
    ensures limits { result ≡ Some new_errors.LimitOfZero → ⊥ }
    ensures order { result ≡ Some new_errors.PortsOutOfOrder → ⊥ }
    ensures clients { result ≡ Some new_errors.TooManyClients → ⊥ }
    ensures pools { result ≡ Some new_errors.PoolTooLarge → ⊥ }
    ensures lengths { result ≡ Some new_errors.UnsuitableLength → ⊥ }
{
    new_refusal(plan, terms, nodes)
}
