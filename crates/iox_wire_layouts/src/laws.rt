//! What is true of the layouts that plans describe.
ghost use Rattle.iox_wire_layouts.specs.LayoutLaws.{KnownSettingsArePlanned, PlannedLayoutsFit};
ghost use Rattle.iox_wire_layouts.specs.LayoutLaws.{PlannedQueuesSuit, PlannedReturnsHaveRoom};
ghost use Rattle.iox_wire_layouts.specs.LayoutLaws.{PlannedSettingsAgree, PlansStay};
ghost use Rattle.iox_wire_layouts.specs.LayoutLaws.{PortsHaveRegions};

/// A layout that is made from a plan has a region for each port, and fits a machine whose ports are
/// the plan's, as its queues do. The plan stays theirs, and a setting is made from it if a node
/// knows its ports.
pub fn layouts_meet_the_laws()
    ensures regions { PortsHaveRegions }
    ensures fits { PlannedLayoutsFit }
    ensures suits { PlannedQueuesSuit }
    ensures returns { PlannedReturnsHaveRoom }
    ensures known { KnownSettingsArePlanned }
    ensures agrees { PlannedSettingsAgree }
    ensures stays { PlansStay }
{}
