use super::{BLACKBOARD, REQUESTS, SAMPLES};
use crate::expected::{are_shown, equal, shows};
use iox_configs::config::{Config, Defaults, Event, Global};
use iox_configs::path::{Path, PathError};
use iox_names::TextError;
use std::process::Abort;

/// Why a path is refused, if it is.
type Refused = Option<PathError>;

const LONG: Refused = Some(PathError::ExceedsMaximumLength);

const INVALID: Refused = Some(PathError::InvalidContent);

/// Ends the test where bytes are refused otherwise as a path, or are another one.
fn is_path(rt: &impl Abort, bytes: &[u8], refused: Refused) {
    let text = str::from_utf8(bytes).expect(rt, "a text");
    match Path::new(text) {
        Ok(path) => equal(rt, (path.as_str(), None), (text, refused)),
        Err(error) => equal(rt, (text, Some(error)), (text, refused)),
    }
}

#[test]
fn a_path_has_1_to_255_bytes_from_1_to_127(rt: HostRuntime) {
    const PATHS: &[(&[u8], Refused)] = &[
        (&[b'a'; 255], None),
        (&[0; 256], LONG),
        (b"", INVALID),
        (b"/a\0", INVALID),
        (b"/\xc3\xa4", INVALID),
        (b"\x7f", None),
    ];
    for (bytes, refused) in PATHS {
        is_path(&rt, bytes, *refused);
    }
    equal(&rt, Path::max_len(), 255);
}

#[test]
fn an_error_of_a_path_is_shown(rt: HostRuntime) {
    const ERRORS: &[(PathError, &str)] = &[
        (PathError::InvalidContent, "PathError::InvalidContent"),
        (
            PathError::ExceedsMaximumLength,
            "PathError::ExceedsMaximumLength",
        ),
    ];
    are_shown(&rt, rt.alloc(), ERRORS);
    let error = PathError::from(TextError::InvalidContent);
    equal(&rt, error, PathError::InvalidContent);
}

fn path(rt: &impl Abort, text: &str) -> Path {
    Path::new(text).expect(rt, "a path")
}

/// What all services share, with that root.
fn below(rt: &impl Abort, root: &str) -> Global {
    let mut global = Global::default();
    global.set_root_path(&path(rt, root));
    global
}

/// Ends the test where the root is another one, or services and nodes lie elsewhere.
fn lie(rt: &impl Abort, global: &Global, [root, services, nodes]: [&str; 3]) {
    equal(rt, global.root_path().as_str(), root);
    equal(rt, global.service_dir(), Ok(path(rt, services)));
    equal(rt, global.node_dir(), Ok(path(rt, nodes)));
}

#[test]
fn directories_stand_below_the_root(rt: HostRuntime) {
    let first = [
        "/tmp/iceoryx2",
        "/tmp/iceoryx2/services",
        "/tmp/iceoryx2/nodes",
    ];
    lie(&rt, &Config::default().global, first);
    lie(
        &rt,
        &below(&rt, "/run"),
        ["/run", "/run/services", "/run/nodes"],
    );
    shows(&rt, rt.alloc(), &path(&rt, "/run/nodes"), "/run/nodes");
}

#[test]
fn no_directory_stands_below_the_longest_root(rt: HostRuntime) {
    const LONGEST: &str = "/123456789abcdef0123456789abcdef0123456789abcdef0123456789abcdef\
        0123456789abcdef0123456789abcdef0123456789abcdef0123456789abcdef\
        0123456789abcdef0123456789abcdef0123456789abcdef0123456789abcdef\
        0123456789abcdef0123456789abcdef0123456789abcdef0123456789abcde";
    let global = below(&rt, LONGEST);
    equal(&rt, global.root_path().as_str(), LONGEST);
    equal(
        &rt,
        [global.service_dir().err(), global.node_dir().err()],
        [LONG, LONG],
    );
}

/// Ends the test where settings are not the documented first ones.
fn are_first(rt: &impl Abort, defaults: &Defaults) {
    equal(rt, &defaults.request_response, &REQUESTS);
    equal(rt, &defaults.publish_subscribe, &SAMPLES);
    equal(rt, &defaults.blackboard, &BLACKBOARD);
    equal(rt, &defaults.event, &Event::default());
    equal(rt, defaults.event.event_id_max_value, 255);
    equal(rt, defaults.event.deadline, None);
}

#[test]
fn first_settings_are_the_documented_ones(rt: HostRuntime) {
    are_first(&rt, &Defaults::default());
    are_first(&rt, &Config::default().defaults);
}
