//! The limits of a service where nobody sets others are the same wherever they are said.
ghost use Rattle.iox_rows_nodes.specs.Agreements.{FirstLimitsAgree};

/// They are the same in a description, in a hub and in the machine.
pub fn first_limits_agree()
    ensures { FirstLimitsAgree }
{}
