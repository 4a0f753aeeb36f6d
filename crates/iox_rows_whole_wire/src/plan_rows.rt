//! What is so of plans and terms of wires where each limit is 1, as they are changed one by one.
use super::settings::{Service, plan, terms};
use crate::expected::equal;
use iox_model::kind::Role;
use iox_types::{MessageTypeDetails, TypeDetail, TypeVariant};
use iox_wire::{WireNewError, WirePlan, have_layouts, is_plan, is_whole, new_refusal};
use iox_wire_lenders::WireTerms;
use std::process::Abort;
use std::test::Fail;

/// A part of a message.
#[derive(Clone, Copy)]
pub(super) enum Part {
    Header,
    UserHeader,
    Payload,
}

/// A limit of a plan or of its terms.
#[derive(Clone, Copy)]
pub(super) enum Limit {
    ActiveRequests,
    ResponseBuffer,
    BorrowedResponses,
    Clients,
    LoanedRequests,
    /// Of the last port.
    LoanedResponses,
}

/// What is changed of a plan and its terms.
#[derive(Clone, Copy)]
pub(super) enum Change {
    /// No port has a slot.
    Pools,
    /// The port of that number has so many slots.
    Pool(u64, usize),
    /// Each port has number 0.
    Numbers,
    /// The ports and their terms stand in the other order.
    Order,
    /// The port of that number has that role.
    Role(u64, Role),
    /// The last port has no terms.
    Terms,
    /// That limit is so many.
    Limit(Limit, usize),
    /// The queues of responses do not overflow.
    ResponseOverflow,
    /// Nor do those of requests.
    RequestOverflow,
    /// Messages of the port of that number have so many elements at most, for which a slot has so
    /// many words.
    Longest(u64, usize, usize),
    /// A message of that role has any number of elements, or one.
    Many(Role, bool),
    /// That part of the messages of that role has so many bytes, and is aligned so.
    Part(Role, Part, usize, usize),
    /// The first handles have that number.
    FirstNumber(u64),
}

/// A change, or what holds of a plan and its terms.
#[derive(Clone, Copy)]
pub(super) enum Row {
    Changes(Change),
    IsPlan(bool),
    IsWhole(bool),
    HaveLayouts(bool),
    /// It is a plan, and no wire is made of it for that reason, or for none.
    Refuses(Option<WireNewError>),
}

/// No port of that plan has a slot.
fn clear_pools(plan: &mut WirePlan) {
    for port in &mut plan.ports {
        port.pool = 0;
    }
}

/// The port of that number has so many slots.
fn fill_pool(plan: &mut WirePlan, number: u64, slots: usize) {
    for port in &mut plan.ports {
        if port.number == number {
            port.pool = slots;
        }
    }
}

/// Each port of that plan has number 0.
fn clear_numbers(plan: &mut WirePlan) {
    for port in &mut plan.ports {
        port.number = 0;
    }
}

/// The port of that number has that role.
fn turn(plan: &mut WirePlan, number: u64, role: Role) {
    for port in &mut plan.ports {
        if port.number == number {
            port.role = role;
        }
    }
}

/// Messages of the port of that number have so many elements at most, for which a slot has so many
/// words.
fn lengthen(plan: &mut WirePlan, number: u64, longest: usize, slot_words: usize) {
    for port in &mut plan.ports {
        if port.number == number {
            port.longest = longest;
            port.slot_words = slot_words;
        }
    }
}

/// That limit is so many.
fn set_limit(plan: &mut WirePlan, terms: &mut WireTerms, limit: Limit, count: usize) {
    match limit {
        Limit::ActiveRequests => plan.limits.active_requests = count,
        Limit::ResponseBuffer => plan.limits.response_buffer = count,
        Limit::BorrowedResponses => plan.limits.borrowed_responses = count,
        Limit::Clients => terms.clients = count as u64,
        Limit::LoanedRequests => terms.loaned_requests = count as u64,
        Limit::LoanedResponses => {
            if let Some(port) = terms.ports.last_mut() {
                port.loaned_responses = count as u64;
            }
        }
    }
}

/// A message of that role has any number of elements, or one.
fn count_elements(terms: &mut WireTerms, role: Role, many: bool) {
    match role {
        Role::Client => terms.request.many = many,
        Role::Server => terms.response.many = many,
    }
}

/// That part of the messages becomes this.
fn put(details: &mut MessageTypeDetails, part: Part, detail: TypeDetail) {
    match part {
        Part::Header => details.header = detail,
        Part::UserHeader => details.user_header = detail,
        Part::Payload => details.payload = detail,
    }
}

/// That part of the messages of that role has so many bytes, and is aligned so.
fn put_part(
    plan: &mut WirePlan,
    role: Role,
    part: Part,
    size: usize,
    alignment: usize,
) -> Result<(), Fail> {
    let detail = TypeDetail::from_parts(TypeVariant::FixedSize, "P", size, alignment)?;
    match role {
        Role::Client => put(&mut plan.request, part, detail),
        Role::Server => put(&mut plan.response, part, detail),
    }
    Ok(())
}

/// Changes that.
fn changes(plan: &mut WirePlan, terms: &mut WireTerms, change: Change) -> Result<(), Fail> {
    match change {
        Change::Pools => clear_pools(plan),
        Change::Pool(number, slots) => fill_pool(plan, number, slots),
        Change::Numbers => clear_numbers(plan),
        Change::Order => {
            plan.ports.reverse();
            terms.ports.reverse();
        }
        Change::Role(number, role) => turn(plan, number, role),
        Change::Terms => {
            terms.ports.pop();
        }
        Change::Limit(limit, count) => set_limit(plan, terms, limit, count),
        Change::ResponseOverflow => plan.limits.response_overflow = false,
        Change::RequestOverflow => plan.limits.request_overflow = false,
        Change::Longest(number, longest, slot_words) => {
            lengthen(plan, number, longest, slot_words);
        }
        Change::Many(role, many) => count_elements(terms, role, many),
        Change::Part(role, part, size, alignment) => {
            put_part(plan, role, part, size, alignment)?;
        }
        Change::FirstNumber(number) => terms.first_number = number,
    }
    Ok(())
}

/// Whether the row says what is so of them.
fn tells(plan: &WirePlan, terms: &WireTerms, row: Row) -> bool {
    match row {
        Row::Changes(_) => true,
        Row::IsPlan(wanted) => is_plan(plan) == wanted,
        Row::IsWhole(wanted) => is_whole(plan, terms) == wanted,
        Row::HaveLayouts(wanted) => have_layouts(plan) == wanted,
        Row::Refuses(wanted) => is_plan(plan) && new_refusal(plan, terms, &[0, 1]) == wanted,
    }
}

/// What is so of the plan of a service.
pub(super) struct PlanRows<'a> {
    /// What a failed test tells.
    pub(super) name: &'a str,
    pub(super) service: Service,
    pub(super) rows: &'a [Row],
}

/// Ends the test where a row does not tell what is so.
fn tell(
    rt: &impl Abort,
    plan: &mut WirePlan,
    terms: &mut WireTerms,
    of: &PlanRows<'_>,
) -> Result<(), Fail> {
    for (place, row) in of.rows.iter().enumerate() {
        if let Row::Changes(change) = *row {
            changes(plan, terms, change)?;
        }
        equal(
            rt,
            (of.name, place, tells(plan, terms, *row)),
            (of.name, place, true),
        );
    }
    Ok(())
}

/// The same of a new plan.
fn of_its_plan(rt: &(impl Abort + AllocGlobal), of: &PlanRows<'_>) -> Result<(), Fail> {
    let mut terms = terms(rt.alloc(), of.service)?;
    let mut plan = plan(rt.alloc(), of.service)?;
    tell(rt, &mut plan, &mut terms, of)
}

/// The same of each of these.
pub(super) fn of_their_plans(
    rt: &(impl Abort + AllocGlobal),
    list: &[PlanRows<'_>],
) -> Result<(), Fail> {
    for of in list {
        of_its_plan(rt, of)?;
    }
    Ok(())
}
