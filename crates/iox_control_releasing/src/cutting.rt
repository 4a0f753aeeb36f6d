//! The pipes from a port that goes are kept where something waits, and else taken out.
ghost use Rattle.std.specs.Prelude.{◌≡◌, map, slice_get, slice_set};
ghost use Rattle.std.specs.Option.{option_map_or};
ghost use Rattle.iox_tables.specs.HubBooks.Counts.{lane_count, total};
ghost use Rattle.iox_tables.specs.HubMaking.OneByOne.{without_first_pipe};
ghost use Rattle.iox_control.specs.Controls.{with_tables};
ghost use Rattle.iox_control_releasing.specs.LettingGo.{LetsGo, cut_at, from_in, with_cut};

use crate::letting_go::let_pipe_go;
use iox_control::Control;

/// Cuts the port in that place from the sender: the pipe from it is kept if something waits there.
/// Lets go of all messages on the pipe that goes, if one does.
fn cut_at(control: &mut Control, at: usize, sender: u64)
    ensures left { control.new ≡ with_cut control.old
        (cut_at sender control.old.tables.ports at) control.new.tables.pools }
    ensures fewer { LetsGo control.old.tables.pools control.new.tables.pools
        (λ pool k. option_map_or (from_in (lane_count pool k) sender)
        (slice_get control.old.tables.ports at) 0) }
{
    let ports = control.ports();
    if at < ports.len() {
        match ports.at(at) {
            None => {}
            Some(info) => match control.expire(info.number, sender) {
                None => {}
                Some(pipe) => let_pipe_go(control, pipe),
            },
        }
    }
}

/// Cuts each port from the sender, and lets go of all messages on the pipes that go.
pub fn cut_all(control: &mut Control, sender: u64)
    ensures left { control.new ≡ with_cut control.old
        (map (without_first_pipe sender) control.old.tables.ports) control.new.tables.pools }
    ensures fewer { LetsGo control.old.tables.pools control.new.tables.pools
        (λ pool k. total (from_in (lane_count pool k) sender) control.old.tables.ports) }
{
    for at in 0..control.ports().len() {
        cut_at(control, at, sender);
    }
}
