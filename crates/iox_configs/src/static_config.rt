//! What one service was made with, by its messaging pattern.
pub mod blackboard;
pub mod event;
pub mod publish_subscribe;
pub mod request_response;
