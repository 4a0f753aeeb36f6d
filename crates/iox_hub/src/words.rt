//! What the messages of one pool carry.

use iox_store::Store;
use iox_words::Words;

/// What the messages of a client, or of a server, carry.
#[derive(Drop)]
pub enum PoolWords<QE: Words, QH: Words, PE: Words, PH: Words> {
    /// Of a client: the elements and user headers of its requests.
    Requests(Store<QE, QH>),
    /// Of a server: the elements and user headers of its responses.
    Responses(Store<PE, PH>),
}
