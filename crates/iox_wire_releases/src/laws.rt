//! What is true of the handles that a node can release.
ghost use Rattle.iox_wire_releases.specs.ReleaseLaws.{HandlesMayBeReleased};

/// What a release asks of a handle follows from what the invariant of a wire says of it.
pub fn handles_may_be_released()
    ensures { HandlesMayBeReleased }
{}
