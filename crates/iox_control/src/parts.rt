//! What a hub's tables are made of, to be looked at.
ghost use Rattle.std.specs.Prelude.{◌≡◌};
ghost use Rattle.iox_control.specs.Entries.{handles_of};
ghost use Rattle.iox_control.specs.Settings.{settings_of};

use crate::control::Control;
use crate::settings::Settings;
use iox_handles::Table;
use iox_hub_ports::ports::Ports;
use iox_slots::Pools;

impl Control {
    /// The numbers and strategies of its service.
    #[inline]
    pub fn settings(&self) -> Settings
        ensures { settings_of result ≡ self.now.tables.settings }
    {
        self.settings
    }

    /// How many calls were counted.
    #[inline]
    pub fn calls(&self) -> u64
        ensures { result ≡ self.now.tables.calls }
    {
        self.calls
    }

    /// The number of the next port or handle.
    #[inline]
    pub fn next_number(&self) -> u64
        ensures { result ≡ self.now.tables.next_number }
    {
        self.next_number
    }

    /// Where the handle that came last is: it may be looked for there first.
    #[inline(always)]
    pub fn last_place(&self) -> usize {
        self.last_place
    }

    /// Where the handle of that number is likely: it may be looked for there first.
    #[inline(always)]
    pub fn likely_handle(&self, number: u64) -> usize {
        self.handles.likely_place(number)
    }

    /// A better hint: where the port of that number stands, if it is there.
    #[inline(always)]
    pub fn likely_place(&self, port: u64, hint: usize) -> usize {
        self.ports.likely_place(port, hint)
    }

    /// How many ports were ever made.
    #[inline]
    pub fn ports_made(&self) -> u64
        ensures { result ≡ self.now.tables.ports_made }
    {
        self.ports_made
    }

    /// The connected ports.
    #[inline]
    pub fn ports(&self) -> &Ports
        ensures ports { result.now.ports ≡ self.now.tables.ports }
        ensures room { result.now.room ≡ self.now.port_room }
    {
        &self.ports
    }

    /// All handles.
    #[inline]
    pub fn handles(&self) -> &Table
        ensures handles { handles_of result.now ≡ self.now.tables.handles }
        ensures room { result.now.room ≡ self.now.room }
    {
        &self.handles
    }

    /// The slots of messages.
    #[inline]
    pub fn pools(&self) -> &Pools
        ensures { result.now ≡ self.now.tables.pools }
    {
        &self.pools
    }
}
