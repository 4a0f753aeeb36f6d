//! What a request-response service was made with.
ghost use Rattle.std.specs.Prelude.{◌≡◌};

use crate::config::RequestResonse;
use crate::pools::{number, product, sum};
use iox_types::MessageTypeDetails;
use std::marker::Model;

/// The types of a service's requests and responses, and its settings.
#[derive(Clone, Copy, Debug, PartialEq, Eq)]
pub struct StaticConfig {
    request_message_type_details: MessageTypeDetails,
    response_message_type_details: MessageTypeDetails,
    settings: RequestResonse,
}

impl Model for StaticConfig {
    ghost use Rattle.iox_configs.specs.Services.{RequestResponseService};

    ghost Value = { RequestResponseService };

    ghost view = { λ it. record {
      request = it.request_message_type_details;
      response = it.response_message_type_details;
      settings = it.settings;
    } };

    ghost inverse = { λ it. record {
      request_message_type_details = it.request;
      response_message_type_details = it.response;
      settings = it.settings;
    } };
}

impl StaticConfig {
    ghost use Rattle.iox_types.specs.Layouts.{as_usize};
    ghost use Rattle.iox_configs.specs.Pools.{client_chunks, server_chunks};

    /// The configuration of those types and settings.
    pub fn new(
        request: MessageTypeDetails,
        response: MessageTypeDetails,
        settings: RequestResonse,
    ) -> StaticConfig
        ensures request { result.request ≡ request }
        ensures response { result.response ≡ response }
        ensures settings { result.settings ≡ settings }
    {
        StaticConfig {
            request_message_type_details: request,
            response_message_type_details: response,
            settings,
        }
    }

    /// How many messages the data segment of a client needs that lends so many requests at once;
    /// `None` if that is past `usize::MAX`.
    pub fn required_amount_of_chunks_per_client_data_segment(
        &self,
        max_loaned_requests: usize,
    ) -> Option<usize>
        ensures { result ≡ as_usize (client_chunks self.now.settings max_loaned_requests) }
    {
        let active = self.settings.max_active_requests_per_client;
        active
            .checked_mul(self.settings.max_servers)?
            .checked_mul(2)?
            .checked_add(active)?
            .checked_add(max_loaned_requests)
    }

    /// How many messages the data segment of a server needs that lends so many responses for each
    /// request at once; `None` if that is past `usize::MAX`.
    pub fn required_amount_of_chunks_per_server_data_segment(
        &self,
        max_loaned_responses_per_request: usize,
    ) -> Option<usize>
        ensures { result
            ≡ as_usize (server_chunks self.now.settings max_loaned_responses_per_request) }
    {
        let settings = &self.settings;
        let clients = number(settings.max_clients);
        let active = product(
            number(max_loaned_responses_per_request),
            number(settings.max_active_requests_per_client),
        );
        let lanes = self.required_amount_of_chunks_per_client_data_segment(
            settings.max_loaned_requests,
        );
        let each = sum(
            number(settings.max_response_buffer_size),
            number(settings.max_borrowed_responses_per_pending_response),
        );
        sum(
            product(active, clients),
            product(product(clients, lanes), each),
        )
    }

    /// The description of requests.
    pub fn request_message_type_details(&self) -> &MessageTypeDetails
        ensures { result.now ≡ self.now.request }
    {
        &self.request_message_type_details
    }

    /// The description of responses.
    pub fn response_message_type_details(&self) -> &MessageTypeDetails
        ensures { result.now ≡ self.now.response }
    {
        &self.response_message_type_details
    }

    /// All settings of the service.
    pub fn settings(&self) -> &RequestResonse
        ensures { result.now ≡ self.now.settings }
    {
        &self.settings
    }

    /// The most clients that the service has at once.
    pub fn max_clients(&self) -> usize
        ensures { result ≡ self.now.settings.max_clients }
    {
        self.settings.max_clients
    }

    /// The most servers that the service has at once.
    pub fn max_servers(&self) -> usize
        ensures { result ≡ self.now.settings.max_servers }
    {
        self.settings.max_servers
    }

    /// The most nodes that the service has at once.
    pub fn max_nodes(&self) -> usize
        ensures { result ≡ self.now.settings.max_nodes }
    {
        self.settings.max_nodes
    }

    /// The most requests of a client that wait for responses at once.
    pub fn max_active_requests_per_client(&self) -> usize
        ensures { result ≡ self.now.settings.max_active_requests_per_client }
    {
        self.settings.max_active_requests_per_client
    }

    /// The most requests that a client lends at once.
    pub fn max_loaned_requests(&self) -> usize
        ensures { result ≡ self.now.settings.max_loaned_requests }
    {
        self.settings.max_loaned_requests
    }

    /// The most responses that wait for one request, from each server.
    pub fn max_response_buffer_size(&self) -> usize
        ensures { result ≡ self.now.settings.max_response_buffer_size }
    {
        self.settings.max_response_buffer_size
    }

    /// The most responses to one request, from each server, that a client has at once.
    pub fn max_borrowed_responses_per_pending_response(&self) -> usize
        ensures { result ≡ self.now.settings.max_borrowed_responses_per_pending_response }
    {
        self.settings.max_borrowed_responses_per_pending_response
    }

    /// Whether a request for a full server pushes the oldest out.
    pub fn has_safe_overflow_for_requests(&self) -> bool
        ensures { result ≡ self.now.settings.enable_safe_overflow_for_requests }
    {
        self.settings.enable_safe_overflow_for_requests
    }

    /// Whether a response for a full client pushes the oldest out.
    pub fn has_safe_overflow_for_responses(&self) -> bool
        ensures { result ≡ self.now.settings.enable_safe_overflow_for_responses }
    {
        self.settings.enable_safe_overflow_for_responses
    }

    /// Whether a server gets requests whose client waits for no response any more.
    pub fn does_support_fire_and_forget_requests(&self) -> bool
        ensures { result ≡ self.now.settings.enable_fire_and_forget_requests }
    {
        self.settings.enable_fire_and_forget_requests
    }
}
