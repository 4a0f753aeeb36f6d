//! The messages of a wire in their regions: whose slot a word is, and that it stays while others
//! store. The functions have nothing to do: each is there for its contract.
ghost use Rattle.iox_wire_laws.specs.WireRegions.BeginsShow.{BeginsShowTheWorld, DeathsShowTheWorld};
ghost use Rattle.iox_wire_laws.specs.WireRegions.MessageStores.{HeadersAreThere, HeadersTellTheirMessages};
ghost use Rattle.iox_wire_laws.specs.WireRegions.MessageStores.{LoansAreStored, MessagesStay};
ghost use Rattle.iox_wire_laws.specs.WireRegions.MessageStores.{ReadsFindTheirMessages, WritesAreStored};
ghost use Rattle.iox_wire_laws.specs.WireRegions.OwnSlots.{LoansHaveOwnSlots, OwnSlotsAreNoHandles};
ghost use Rattle.iox_wire_laws.specs.WireRegions.OwnedBegins.{CopiesAreOwned, LoansBeginAsOwners};
ghost use Rattle.iox_wire_laws.specs.WireRegions.OwnedBegins.{LayoutsStayFit, ReceivesBeginAsOwners};
ghost use Rattle.iox_wire_laws.specs.WireRegions.OwnedBegins.{SendsBeginAsOwners, WorkedLayoutFits};
ghost use Rattle.iox_wire_laws.specs.WireRegions.OwnedBegins.{WritesAndReadsBeginAsOwners};
ghost use Rattle.iox_wire_laws.specs.WireRegions.OwnedOthers.{OthersLeaveOwned};
ghost use Rattle.iox_wire_laws.specs.WireRegions.OwnedWordLaws.{OwnersGoOn, OwnersMayAccess};
ghost use Rattle.iox_wire_laws.specs.WireRegions.OwnedWordLaws.{OwnersStayOwners};
ghost use Rattle.iox_wire_laws.specs.WireRegions.QuestionBegins.{QuestionsBeginAsOwners};
ghost use Rattle.iox_wire_laws.specs.WireRegions.Readers.{WhatIsOutIsNotStored, WhatIsReadIsOut};
ghost use Rattle.iox_wire_laws.specs.WireRegions.Readers.{WhatIsReadStays};
ghost use Rattle.iox_wire_laws.specs.WireRegions.RegionLaws.{PlacesTellTheirSlot, WordsAreInTheirRegion};
ghost use Rattle.iox_wire_laws.specs.WireRegions.RegionLaws.{StoresLeaveTheContents, StoresLeaveTheRest};
ghost use Rattle.iox_wire_laws.specs.WireRegions.RegionLaws.{WorkedPortsHaveRegions};

/// The words of a slot stand in their port's region, and no two are the same.
pub fn slots_are_apart()
    ensures within { WordsAreInTheirRegion }
    ensures told { PlacesTellTheirSlot }
    ensures worked { WorkedPortsHaveRegions }
{}

/// A store into a slot changes one word, and no queue's or request state's.
pub fn stores_leave_the_rest()
    ensures words { StoresLeaveTheRest }
    ensures contents { StoresLeaveTheContents }
{}

/// What a call owns, its place may access, and after an access it owns the next place: also where
/// it accesses words of messages.
pub fn owners_go_on()
    ensures places { OwnersMayAccess }
    ensures steps { OwnersStayOwners }
    ensures shown { OwnersGoOn }
{}

/// Loans, writes, reads, sends, receives, questions and hints begin as owners of their first place,
/// where the layout fits the ports, as it then does after any beat.
pub fn calls_begin_as_owners()
    ensures copies { CopiesAreOwned }
    ensures loans { LoansBeginAsOwners }
    ensures words { WritesAndReadsBeginAsOwners }
    ensures sends { SendsBeginAsOwners }
    ensures receives { ReceivesBeginAsOwners }
    ensures questions { QuestionsBeginAsOwners }
    ensures layouts { LayoutsStayFit }
    ensures worked { WorkedLayoutFits }
{}

/// A beat of another node leaves what a call owns.
pub fn others_leave_what_is_owned()
    ensures { OthersLeaveOwned }
{}

/// The slot of a loan in the making belongs only to its call.
pub fn loans_have_own_slots()
    ensures own { LoansHaveOwnSlots }
    ensures handles { OwnSlotsAreNoHandles }
{}

/// Loans and writes leave their messages in their slots, and no other access changes them.
pub fn slots_hold_their_messages()
    ensures stay { MessagesStay }
    ensures loans { LoansAreStored }
    ensures writes { WritesAreStored }
{}

/// Reads and receives find in a slot what the message there has.
pub fn loads_find_their_messages()
    ensures reads { ReadsFindTheirMessages }
    ensures there { HeadersAreThere }
    ensures headers { HeadersTellTheirMessages }
{}

/// While a node reads a message, nobody stores into its slot.
pub fn what_is_read_stays()
    ensures unstored { WhatIsOutIsNotStored }
    ensures out { WhatIsReadIsOut }
    ensures stays { WhatIsReadStays }
{}

/// Where words and seats show a world, they show the next one as a node's call begins.
pub fn begins_show_the_world()
    ensures { BeginsShowTheWorld }
{}

/// So they do as a node dies.
pub fn deaths_show_the_world()
    ensures { DeathsShowTheWorld }
{}
