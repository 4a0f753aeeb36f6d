//! The hash by which a service is found.
ghost use Rattle.std.specs.Prelude.{◌≡◌};

use crate::messaging_pattern::MessagingPattern;
use crate::service_name::ServiceName;
use sha1::Sha1;
use std::marker::Model;
use std::{fmt, str};

/// The lower hexadecimal SHA-1 of a service's pattern and name.
#[derive(Clone, Copy, PartialEq, Eq, PartialOrd, Ord, Hash)]
pub struct ServiceHash {
    digits: [u8; 40],
}

impl Model for ServiceHash {
    ghost use Rattle.std.specs.Prelude.{ℕ, List};
    ghost use Rattle.iox_names.specs.Digits.{AreDigits};

    ghost Value = { List ℕ };

    ghost view = { λ it. it.digits };

    ghost invariant = { λ it. AreDigits it.digits };

    ghost inverse = { λ digits. record { digits = digits } };
}

impl ServiceHash {
    ghost use Rattle.iox_names.specs.ServiceHashes.{service_hash};

    /// The hash of the service of that name and pattern.
    pub fn new(name: &ServiceName, pattern: MessagingPattern) -> ServiceHash
        ensures { result ≡ service_hash pattern name.now }
    {
        let digit: &[u8] = match pattern {
            MessagingPattern::RequestResponse => b"1",
            MessagingPattern::PublishSubscribe => b"2",
            MessagingPattern::Event => b"3",
            MessagingPattern::Blackboard => b"4",
        };
        let mut hasher = Sha1::new();
        hasher.update(digit);
        hasher.update(name.as_str().as_bytes());
        let mut digits = [0; 40];
        let Ok(()) = hex::encode_to_slice(&hasher.finalize()[..], &mut digits) else {
            unreachable!();
        };
        ServiceHash { digits }
    }

    /// The hash as text.
    pub fn as_str(&self) -> &str
        ensures { result.now ≡ self.now }
    {
        match str::from_utf8(&self.digits) {
            Ok(text) => text,
            Err(_) => unreachable!(),
        }
    }

    /// How many digits a hash has.
    pub fn max_number_of_characters() -> usize
        ensures { result ≡ 40 }
    {
        40
    }
}

impl fmt::Debug for ServiceHash {
    fn fmt<W: fmt::Write>(&self, f: &mut fmt::Formatter<W>) -> fmt::Result {
        fmt::Debug::fmt(&self.as_str(), f)
    }
}
