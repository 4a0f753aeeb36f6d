//! What an identifier may belong to.

/// An identifier of a client.
pub struct Client;

/// An identifier of a server.
pub struct Server;

/// An identifier of a publisher.
pub struct Publisher;

/// An identifier of a subscriber.
pub struct Subscriber;

/// An identifier of a notifier.
pub struct Notifier;

/// An identifier of a listener.
pub struct Listener;

/// An identifier of a reader.
pub struct Reader;

/// An identifier of a writer.
pub struct Writer;

/// An identifier of a service.
pub struct Service;
