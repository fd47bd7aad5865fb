//! Laws of journals: if they match, they are one run of a world, and what a world plays are journals that match.

ghost use Rattle.ep_rules.specs.Merging.{AgreedIs, AgreesByStamp, AskedGrows, CallerOrder, ClockedAccepted, ClockedMatch, ClocksGrow, ClocksStayAbove, DoneByPlace, EachReply, FaultsAreFirst, FramesWereSent, JournalsAgree, JournalsDepend, JournalsKeep, JournalsOrder, JournalsPropose, LocalRunsGrow, MergedIsARun, NumbersArePlaces, OneProposal, OneSchedule, OneTable, OriginByPlace, OwnEntriesLeave, OwnReceiptsAgree, OwnStays, PlayedAccepted, PlayedGrows, PlayedIsARun, PlayedMatch, PlayedSends, ProposalsName, ProposalsReport, SentByPlace, SentStays, SomeSchedule};

/// Matched journals, merged in the order of stamps, are a run of the world, whose replicas' own runs they are.
pub fn merged_is_a_run()
    ensures { MergedIsARun }
{}

/// Journals have one schedule at most: all their entries by stamp, and by replica if stamps are equal.
pub fn one_schedule()
    ensures { OneSchedule }
{}

/// Journals whose stamps rise have a schedule.
pub fn some_schedule()
    ensures { SomeSchedule }
{}

/// A replica's state in the world that a schedule leaves is what its own entries leave.
pub fn own_entries_leave()
    ensures { OwnEntriesLeave }
{}

/// No two of the matched journals commit different commands or attributes in an instance.
pub fn journals_agree()
    ensures { JournalsAgree }
{}

/// What a replica has committed after some of its entries, it has committed after all of them.
pub fn journals_keep()
    ensures { JournalsKeep }
{}

/// A command other than a no-op that one of the matched journals commits was proposed, as this instance, by the replica that leads it.
pub fn journals_propose()
    ensures { JournalsPropose }
{}

/// Of two interfering commands that the matched journals commit one depends on the other.
pub fn journals_depend()
    ensures { JournalsDepend }
{}

/// What the matched journals agree on in an instance is what at least one of them commits there.
pub fn agreed_is()
    ensures { AgreedIs }
{}

/// Journals have one table at most of what they commit.
pub fn one_table()
    ensures { OneTable }
{}

/// Each execution of each entry answers one map's reply to one history, at the instance's place there. A no-op answers lost, and has no place.
pub fn each_reply()
    ensures { EachReply }
{}

/// Each replica executes two interfering commands in the history's order.
pub fn journals_order()
    ensures { JournalsOrder }
{}

/// Each caller's order is kept: what a client proposes after it saw a receipt's stamp stands after that receipt's command in the history.
pub fn caller_order()
    ensures { CallerOrder }
{}

/// What a world plays, each step handling a frame that an earlier one sent, is a run.
pub fn played_is_a_run()
    ensures { PlayedIsARun }
{}

/// The journals of what a world plays are local runs that match, if their entries are numbered from 1 and each stamp is one more than the greatest one that was known.
pub fn played_match()
    ensures { PlayedMatch }
{}

/// The frames of what a world plays, in order of sending, are what the world has sent.
pub fn played_sends()
    ensures { PlayedSends }
{}

/// The journals of what a world plays are accepted, together with receipts of its replicas' own commands, if their entries are numbered from 1 and each stamp is one more than the greatest one that was known.
pub fn played_accepted()
    ensures { PlayedAccepted }
{}

/// A proposal takes the least instance of its replica that is free, and each frame that it sends is about that instance. It sends one at least.
pub fn proposals_name()
    ensures { ProposalsName }
{}

/// A replica proposes one command at most as an instance.
pub fn one_proposal()
    ensures { OneProposal }
{}

/// The entry that proposes a command as an instance is the one proposal of the journal whose first frame is about that instance.
pub fn proposals_report()
    ensures { ProposalsReport }
{}

/// A local run and one more step are a local run if the step's entry has the next number and a greater stamp, and its frames bear both and their places.
pub fn local_runs_grow()
    ensures { LocalRunsGrow }
{}

/// A clocked journal and one more entry are clocked if that entry's stamp is one more than the greatest one that was known.
pub fn clocks_grow()
    ensures { ClocksGrow }
{}

/// Clocks that begin at a stamp stay above it.
pub fn clocks_stay_above()
    ensures { ClocksStayAbove }
{}

/// What a world plays goes on with what is played in the world that it leaves.
pub fn played_grows()
    ensures { PlayedGrows }
{}

/// What is asked in two lists of entries, one after the other, is what is asked in the first and then in the second.
pub fn asked_grows()
    ensures { AskedGrows }
{}

/// A frame out of an entry of a local run names its sender, its entry and stamp, and its place there: it was sent.
pub fn frames_were_sent()
    ensures { FramesWereSent }
{}

/// What was sent stays so while journals grow.
pub fn sent_stays()
    ensures { SentStays }
{}

/// A replica's receipt of its own command stays one while its journal grows.
pub fn own_stays()
    ensures { OwnStays }
{}

/// The receipts that a replica gives for its own commands agree with the journals, if each stamp is one more than the greatest one that was known.
pub fn own_receipts_agree()
    ensures { OwnReceiptsAgree }
{}

/// Clocked journals match if each handled frame was sent.
pub fn clocked_match()
    ensures { ClockedMatch }
{}

/// Clocked journals are accepted, with receipts of which each is some replica's own, if each handled frame was sent.
pub fn clocked_accepted()
    ensures { ClockedAccepted }
{}

/// What the audit accepts has no fault, and what it refuses has one first fault at most.
pub fn faults_are_first()
    ensures { FaultsAreFirst }
{}

/// An entry's number is its place in its journal, from 1.
pub fn numbers_are_places()
    ensures { NumbersArePlaces }
{}

/// A frame was sent exactly if it stands at the place that it names, in the entry at its number's place.
pub fn sent_by_place()
    ensures { SentByPlace }
{}

/// A frame was sent from where this one says that it comes, exactly if that place of that entry has a frame.
pub fn origin_by_place()
    ensures { OriginByPlace }
{}

/// An execution that a receipt names is that of the entry at its number's place.
pub fn done_by_place()
    ensures { DoneByPlace }
{}

/// A known receipt agrees with the journals if its instance's one proposal has a greater stamp than the client had seen.
pub fn agrees_by_stamp()
    ensures { AgreesByStamp }
{}
