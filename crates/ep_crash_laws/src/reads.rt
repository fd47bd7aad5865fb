//! Laws of reads that write nothing, of nodes that crash and come back.

ghost use Rattle.ep_crash_laws.specs.AskedReads.{AskedReadsAreLinearizable};
ghost use Rattle.ep_crash_laws.specs.CrashLifeReads.{
  CrashLifeReadsAreLinearizable,
  CrashLifeReadsKeepRealTime,
  CrashLifeWholeReadsAreLinearizable,
};
ghost use Rattle.ep_crash_laws.specs.CrashReads.{CrashReadsAreLinearizable};

/// Whatever crashes, every read of one key takes effect between its question and its answer, in the history of what stands in
/// the end, if all that the reader has is on its disk when it answers. What is looked at needn't be on any disk.
pub fn crash_reads_are_linearizable()
    ensures { CrashReadsAreLinearizable }
{}

/// Whatever crashes, and whatever disk is lost, every read of one key in a generation takes effect between its question and its
/// answer in the life that stands in the end. It is right, or it is answered that the map is closed.
///
/// What is looked at needn't be on any disk. The reply is reported once all is on the reader's disk that it had when the reply was
/// taken.
pub fn crash_life_reads_are_linearizable()
    ensures { CrashLifeReadsAreLinearizable }
{}

/// So is what a read of one key is answered by the calls of nodes: each node that is looked at says what interferes
/// with the read; the reader, which is given all of that, reports a reply once all its entries are on its disk.
pub fn asked_reads_are_linearizable()
    ensures { AskedReadsAreLinearizable }
{}

/// A read of any keys takes effect where its reply is taken, if all that is found after that, in whatever memory, was executed
/// already.
pub fn crash_life_whole_reads_are_linearizable()
    ensures { CrashLifeWholeReadsAreLinearizable }
{}

/// A read that is right stands behind each operation, of whatever generation, that any node had executed and been handed
/// out of when it was asked; and two reads in turn never go back, whatever their generations.
pub fn crash_life_reads_keep_real_time()
    ensures { CrashLifeReadsKeepRealTime }
{}
