//! Laws of reads that write nothing, in every run and in every life.

ghost use Rattle.ep_laws.specs.AheadReads.{
  AheadReadsAreLinearizable,
  AheadWholeReadsAreLinearizable,
  HistoriesTakeAheadReads,
  LooksGoByKey,
};
ghost use Rattle.ep_laws.specs.LifeOrder.{LifeReadsKeepRealTime};
ghost use Rattle.ep_laws.specs.LifeReads.{LifeReadsAreLinearizable};
ghost use Rattle.ep_laws.specs.MachineReads.{MachineReadsAreLinearizable};
ghost use Rattle.ep_laws.specs.RealTime.{ReadsKeepRealTime};
ghost use Rattle.ep_laws.specs.Reads.{ReadsAreLinearizable};
ghost use Rattle.ep_laws.specs.WholeReads.{MachineWholeReadsAreLinearizable, WholeReadsAreLinearizable};
ghost use Rattle.ep_laws.specs.WithReads.{HistoriesTakeReads};

/// Every read of one key takes effect at one moment between its question and its answer.
///
/// Its reply is one map's reply after a beginning of the run's history. All that any replica had executed when the read was
/// asked is in that beginning, and nothing that was first executed after the answer.
pub fn reads_are_linearizable()
    ensures { ReadsAreLinearizable }
{}

/// So a read stands behind each operation that any replica had executed when it was asked, before each that is proposed after
/// its answer, and not behind any read that is asked after its answer.
pub fn reads_keep_real_time()
    ensures { ReadsKeepRealTime }
{}

/// With its reads of one key put into their places, every run's history stays a linearization of it: one map's replies to all,
/// in the order of real time, whatever the reads are, and whichever replicas answer them.
pub fn histories_take_reads()
    ensures { HistoriesTakeReads }
{}

/// Whatever the machine outside: a read of one key that its reader's machine answers is linearizable too.
pub fn machine_reads_are_linearizable<S, R>()
    ensures { MachineReadsAreLinearizable S R }
{}

/// A read of any keys takes effect where its reply is taken, if all that is found after that was executed already.
pub fn whole_reads_are_linearizable()
    ensures { WholeReadsAreLinearizable }
{}

/// And so does one of a machine outside.
pub fn machine_whole_reads_are_linearizable<S, R>()
    ensures { MachineWholeReadsAreLinearizable S R }
{}

/// Every read of one key in a generation of a life takes effect at one moment between its question and its answer there.
///
/// It is answered that the map is closed, or by one map's reply to all generations before and a beginning of its own. Then
/// nobody had opened the next generation when it was asked.
pub fn life_reads_are_linearizable()
    ensures { LifeReadsAreLinearizable }
{}

/// Such a read that is right stands behind each operation, of whatever generation, that any replica had executed when it was
/// asked; and two reads in turn never go back, whatever their generations.
pub fn life_reads_keep_real_time()
    ensures { LifeReadsKeepRealTime }
{}

/// A look may be ahead of the run: at what a replica holds in memory, also where a crash takes it later. The read takes effect
/// at one moment between its question and its answer all the same.
///
/// Its reader's reply is that of the run: what the reader executed is on its disk.
pub fn ahead_reads_are_linearizable()
    ensures { AheadReadsAreLinearizable }
{}

/// With such reads put into their places, every run's history stays a linearization of it.
pub fn histories_take_ahead_reads()
    ensures { HistoriesTakeAheadReads }
{}

/// A read of any keys takes effect where its reply is taken, if all that looks ahead of the run find after that was executed
/// already.
pub fn ahead_whole_reads_are_linearizable()
    ensures { AheadWholeReadsAreLinearizable }
{}

/// What a look finds for a command that only reads rests on its keys alone: one answer serves all reads of the same keys.
pub fn looks_go_by_key()
    ensures { LooksGoByKey }
{}
