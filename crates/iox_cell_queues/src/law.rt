//! The laws of single accesses and of queues that stand apart, for those who call their empty
//! functions.
ghost use Rattle.iox_cell_queues.specs.CellLaws.{EveryPushingKeeps, EveryPoppingKeeps, own_words, own_value};
ghost use Rattle.iox_cell_queues.specs.CellOwn.{OwnStays};
ghost use Rattle.iox_cell_queues.specs.Apart.{StretchLeavesQueues};
ghost use Rattle.iox_cell_queues.specs.SwappedStores.{OverwritesAWord, PopsAStrayWord};

use iox_words::Words;

/// Each access of a party is within the queue's words, and is one event of the queue, which has
/// whole values and no others. Values are lists of words, as many as a cell has.
pub fn every_access_keeps_the_queue()
    ensures push { EveryPushingKeeps own_words own_value }
    ensures pop { EveryPoppingKeeps own_words own_value }
{}

/// The same of values of any type with words.
pub fn every_access_keeps_the_values<T: Words>()
    ensures push { EveryPushingKeeps T.words T.of_words }
    ensures pop { EveryPoppingKeeps T.words T.of_words }
{}

/// A push that continues keeps its value until it has published it, whatever its access found. Once
/// it ends it has none.
pub fn values_are_kept_until_published<T>()
    ensures { OwnStays T }
{}

/// Where a call changes words only in one stretch, as `push` and `pop` do, the words still hold
/// each queue outside that stretch, unchanged. The stretch may be that of a queue of another type,
/// or of numbers.
pub fn queues_apart_stay<T: Words>()
    ensures { StretchLeavesQueues T.Words }
{}

/// Why the parties make their accesses in this order. In a queue of one word: where the write
/// position is stored before the word, a pop may be answered by a word that nobody pushed; where
/// the read position is stored before the word is loaded, a push may overwrite that word.
pub fn swapped_stores_break_the_queue<T: Words>()
    ensures stray { PopsAStrayWord T.Words }
    ensures overwritten { OverwritesAWord T.Words }
{}
