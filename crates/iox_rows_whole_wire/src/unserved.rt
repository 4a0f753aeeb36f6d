//! No wire is made of ports and limits that no service has.
use super::plan_rows::{Change, Limit, Part, PlanRows, Row, of_their_plans};
use super::settings::NO_OVERFLOW;
use iox_model::kind::Role;
use iox_wire::WireNewError;
use std::test::Fail;

const LIMIT_OF_ZERO: Option<WireNewError> = Some(WireNewError::LimitOfZero);

const PORTS_OUT_OF_ORDER: Option<WireNewError> = Some(WireNewError::PortsOutOfOrder);

const TOO_MANY_CLIENTS: Option<WireNewError> = Some(WireNewError::TooManyClients);

const POOL_TOO_LARGE: Option<WireNewError> = Some(WireNewError::PoolTooLarge);

const UNSUITABLE_LENGTH: Option<WireNewError> = Some(WireNewError::UnsuitableLength);

/// All else that a caller can test of the plan is well.
const LIMITS_OF_ZERO_ARE_REFUSED: PlanRows<'static> = PlanRows {
    name: "limits_of_zero_are_refused",
    service: NO_OVERFLOW,
    rows: &[
        Row::Refuses(None),
        Row::Changes(Change::Limit(Limit::ActiveRequests, 0)),
        Row::IsWhole(true),
        Row::HaveLayouts(true),
        Row::Refuses(LIMIT_OF_ZERO),
        Row::Changes(Change::Limit(Limit::ActiveRequests, 1)),
        Row::Changes(Change::Limit(Limit::ResponseBuffer, 0)),
        Row::Refuses(LIMIT_OF_ZERO),
        Row::Changes(Change::Limit(Limit::ResponseBuffer, 1)),
        Row::Changes(Change::Limit(Limit::BorrowedResponses, 0)),
        Row::Refuses(LIMIT_OF_ZERO),
        Row::Changes(Change::Limit(Limit::BorrowedResponses, 1)),
        Row::Changes(Change::Limit(Limit::Clients, 0)),
        Row::Refuses(LIMIT_OF_ZERO),
        Row::Changes(Change::Limit(Limit::Clients, 1)),
        Row::Changes(Change::Limit(Limit::LoanedRequests, 0)),
        Row::Refuses(LIMIT_OF_ZERO),
        Row::Changes(Change::Limit(Limit::LoanedRequests, 1)),
        Row::Changes(Change::Limit(Limit::LoanedResponses, 0)),
        Row::IsWhole(true),
        Row::HaveLayouts(true),
        Row::Refuses(LIMIT_OF_ZERO),
        Row::Changes(Change::Limit(Limit::LoanedResponses, 1)),
        Row::Refuses(None),
    ],
};

/// A limit is told before the order, and a header before both.
const PORTS_OUT_OF_ORDER_ARE_REFUSED: PlanRows<'static> = PlanRows {
    name: "ports_out_of_order_are_refused",
    service: NO_OVERFLOW,
    rows: &[
        Row::Changes(Change::Order),
        Row::IsPlan(true),
        Row::IsWhole(true),
        Row::HaveLayouts(true),
        Row::Refuses(PORTS_OUT_OF_ORDER),
        Row::Changes(Change::Limit(Limit::Clients, 0)),
        Row::Refuses(LIMIT_OF_ZERO),
        Row::Changes(Change::Part(Role::Client, Part::Payload, 8, 4)),
        Row::Refuses(Some(WireNewError::UnsuitableAlignment)),
        Row::Changes(Change::Part(Role::Client, Part::Payload, 8, 8)),
        Row::Changes(Change::Limit(Limit::Clients, 1)),
        Row::Changes(Change::Order),
        Row::Refuses(None),
    ],
};

/// The server becomes a second client. The order is told before that.
const CLIENTS_MORE_THAN_THERE_MAY_BE_ARE_REFUSED: PlanRows<'static> = PlanRows {
    name: "clients_more_than_there_may_be_are_refused",
    service: NO_OVERFLOW,
    rows: &[
        Row::Changes(Change::Role(1, Role::Client)),
        Row::Changes(Change::Longest(1, 1, 10)),
        Row::IsWhole(true),
        Row::HaveLayouts(true),
        Row::Refuses(TOO_MANY_CLIENTS),
        Row::Changes(Change::Order),
        Row::Refuses(PORTS_OUT_OF_ORDER),
        Row::Changes(Change::Order),
        Row::Changes(Change::Limit(Limit::Clients, 2)),
        Row::Refuses(None),
    ],
};

/// The number of clients is told before that.
const POOLS_OF_TOO_MANY_MESSAGES_ARE_REFUSED: PlanRows<'static> = PlanRows {
    name: "pools_of_too_many_messages_are_refused",
    service: NO_OVERFLOW,
    rows: &[
        Row::Changes(Change::Pool(0, (1 << 24) - 2)),
        Row::Changes(Change::Pool(1, (1 << 24) - 2)),
        Row::Refuses(None),
        Row::Changes(Change::Pool(1, (1 << 24) - 1)),
        Row::IsWhole(true),
        Row::HaveLayouts(true),
        Row::Refuses(POOL_TOO_LARGE),
        Row::Changes(Change::Role(1, Role::Client)),
        Row::Changes(Change::Longest(1, 1, 10)),
        Row::Refuses(TOO_MANY_CLIENTS),
        Row::Changes(Change::Limit(Limit::Clients, 2)),
        Row::Refuses(POOL_TOO_LARGE),
    ],
};

/// A pool is told before that. Where messages have many elements, each length suits.
const LENGTHS_OF_SINGLE_ELEMENTS_ARE_1: PlanRows<'static> = PlanRows {
    name: "lengths_of_single_elements_are_1",
    service: NO_OVERFLOW,
    rows: &[
        Row::Changes(Change::Many(Role::Server, false)),
        Row::Refuses(None),
        Row::Changes(Change::Longest(1, 2, 10)),
        Row::IsWhole(true),
        Row::HaveLayouts(true),
        Row::Refuses(UNSUITABLE_LENGTH),
        Row::Changes(Change::Pool(0, 1 << 24)),
        Row::Refuses(POOL_TOO_LARGE),
        Row::Changes(Change::Pool(0, 4)),
        Row::Changes(Change::Longest(1, 0, 8)),
        Row::Refuses(UNSUITABLE_LENGTH),
        Row::Changes(Change::Many(Role::Server, true)),
        Row::Refuses(None),
        Row::Changes(Change::Many(Role::Client, false)),
        Row::Refuses(None),
        Row::Changes(Change::Longest(0, 2, 11)),
        Row::Refuses(UNSUITABLE_LENGTH),
    ],
};

#[test]
fn plans_that_no_service_has_are_refused(rt: HostRuntime) -> Result<(), Fail> {
    const PLANS: &[PlanRows<'static>] = &[
        LIMITS_OF_ZERO_ARE_REFUSED,
        PORTS_OUT_OF_ORDER_ARE_REFUSED,
        CLIENTS_MORE_THAN_THERE_MAY_BE_ARE_REFUSED,
        POOLS_OF_TOO_MANY_MESSAGES_ARE_REFUSED,
        LENGTHS_OF_SINGLE_ELEMENTS_ARE_1,
    ];
    of_their_plans(&rt, PLANS)
}
