//! Tables of worked examples. Each function does nothing; its contract is the table.
#![tactic(auto, unfolding(crate::proofs::Computing::machine_computes))]

ghost use Rattle.machine_rows.specs.Clients.{Negotiations, StatusOverWire, RequestsOverWire, MonitorOverWire, ConnectionsEnd};
ghost use Rattle.machine_rows.specs.Serving.{ClientsAreServedInTurn, IdleTakingsServeJobs, ClosingsAreTold};
ghost use Rattle.machine_rows.specs.Spans.{SpansFollowTheirRules};
ghost use Rattle.machine_rows.specs.Accepted.{DeepTextsAreRefused, IdsAreEchoed, MessagesAreCommands, MessagesEndWhereTheyClose};
ghost use Rattle.machine_rows.specs.Backups.{FullBackupsCopyAll};
ghost use Rattle.machine_rows.specs.Bitmaps.{BitmapsCountWrites, GranularitiesHaveDefaults, TransactionsAreWholeOrNothing};
ghost use Rattle.machine_rows.specs.Chains.{GapsAreRefused, LaterUnitsLieOnTop};
ghost use Rattle.machine_rows.specs.Exports.{ExportsAreRefused, ExportsStandForNodes};
ghost use Rattle.machine_rows.specs.Failures.{BrokenSourcesAreLeft, FaultsOfCopiesEndTheirJobs, FaultsOfRequestsPass, FullTargetsEndTheirJobs};
ghost use Rattle.machine_rows.specs.Increments.{BitmapsEndByTheirMode, FailedIncrementsAreMadeGood, IncrementsCopyWhatChanged, PausesLeaveGaps, TargetsAreUsedOnce, UnitsMeetGranules};
ghost use Rattle.machine_rows.specs.Merging.{MergesJoinGranulesAndSpans, RelayedBitmapsMakeOneSpan};
ghost use Rattle.machine_rows.specs.Messages.{ArgumentsAreRefused, MessagesAreRefused, MonitorsNegotiate, TransactionsAreRefused};
ghost use Rattle.machine_rows.specs.Notices.{MomentsAreEvents, NoticesComeInOrder};
ghost use Rattle.machine_rows.specs.Openings.{ClosingsKeepPersistentBitmaps, SessionsFollowEachOther, UnknownSpansGiveNoBase, UntrustedBitmapsAreInconsistent};
ghost use Rattle.machine_rows.specs.Queries.{ListsShowWhatRuns};
ghost use Rattle.machine_rows.specs.Recorded.{LinesHaveOneSpelling, RequestsAreRecordedOnTheirNodes};
ghost use Rattle.machine_rows.specs.Refusals.{AdditionsAreRefused, BackupsAreRefused, ChangesAreRefused, EndsOfMeansAreRefused};
ghost use Rattle.machine_rows.specs.Restoring.{RestoredBytesAreOfThePoint, RunsMakeChains};
ghost use Rattle.machine_rows.specs.Settling.{SettlingWritesWhatDiffers, SyncsLeaveTheLastDisk};
ghost use Rattle.machine_rows.specs.Space.{ClustersHaveKinds, WritesNeedRoom};
ghost use Rattle.machine_rows.specs.Steps.{StepsMayBeTaken};
ghost use Rattle.machine_rows.specs.Views.{ViewsAnswerByTheRules, ViewsReadTheirPoint};
ghost use Rattle.machine_rows.specs.Writing.{WritesAreRead, ZerosMakeHoles};

/// Writes are read back.
pub fn writes_are_read()
    ensures { WritesAreRead }
{}

/// A zero makes holes where it may.
pub fn zeros_make_holes()
    ensures { ZerosMakeHoles }
{}

/// A write for which there is no room changes nothing.
pub fn writes_need_room()
    ensures { WritesNeedRoom }
{}

/// Clusters are data, holes, or kept for zeros.
pub fn clusters_have_kinds()
    ensures { ClustersHaveKinds }
{}

/// A full backup copies each unit once, before it is changed.
pub fn full_backups_copy_all()
    ensures { FullBackupsCopyAll }
{}

/// An incremental backup copies what was written since the backup before it.
pub fn increments_copy_what_changed()
    ensures { IncrementsCopyWhatChanged }
{}

/// What becomes of the bitmap of a completed backup.
pub fn bitmaps_end_by_their_mode()
    ensures { BitmapsEndByTheirMode }
{}

/// Which units a bitmap gives a job.
pub fn units_meet_granules()
    ensures { UnitsMeetGranules }
{}

/// What a failed backup owed is copied by the next one.
pub fn failed_increments_are_made_good()
    ensures { FailedIncrementsAreMadeGood }
{}

/// A target is blank before its job.
pub fn targets_are_used_once()
    ensures { TargetsAreUsedOnce }
{}

/// A bitmap that was disabled for a while begins anew.
pub fn pauses_leave_gaps()
    ensures { PausesLeaveGaps }
{}

/// Files that are no chain are refused.
pub fn gaps_are_refused()
    ensures { GapsAreRefused }
{}

/// A chain gives each byte from its last file that has it.
pub fn later_units_lie_on_top()
    ensures { LaterUnitsLieOnTop }
{}

/// Bitmaps count what is written from their point on.
pub fn bitmaps_count_writes()
    ensures { BitmapsCountWrites }
{}

/// Where none is given, the granularity follows the cluster size.
pub fn granularities_have_defaults()
    ensures { GranularitiesHaveDefaults }
{}

/// A transaction does all or nothing, at one point.
pub fn transactions_are_whole_or_nothing()
    ensures { TransactionsAreWholeOrNothing }
{}

/// A merge joins granules, and spans that meet.
pub fn merges_join_granules_and_spans()
    ensures { MergesJoinGranulesAndSpans }
{}

/// Bitmaps that took over from one another make one span.
pub fn relayed_bitmaps_make_one_span()
    ensures { RelayedBitmapsMakeOneSpan }
{}

/// A view reads as the disk at its point.
pub fn views_read_their_point()
    ensures { ViewsReadTheirPoint }
{}

/// What requests on views are answered.
pub fn views_answer_by_the_rules()
    ensures { ViewsAnswerByTheRules }
{}

/// A source that broke takes no request, and its jobs end.
pub fn broken_sources_are_left()
    ensures { BrokenSourcesAreLeft }
{}

/// A fault of one request is answered, and the next goes on.
pub fn faults_of_requests_pass()
    ensures { FaultsOfRequestsPass }
{}

/// A fault of a copy ends its job alone.
pub fn faults_of_copies_end_their_jobs()
    ensures { FaultsOfCopiesEndTheirJobs }
{}

/// A target without room ends its job at the unit that doesn't fit.
pub fn full_targets_end_their_jobs()
    ensures { FullTargetsEndTheirJobs }
{}

/// Notices of one event come in an order.
pub fn notices_come_in_order()
    ensures { NoticesComeInOrder }
{}

/// A notice has its event's number as its moment.
pub fn moments_are_events()
    ensures { MomentsAreEvents }
{}

/// Why a bitmap isn't added.
pub fn additions_are_refused()
    ensures { AdditionsAreRefused }
{}

/// Why a bitmap isn't changed.
pub fn changes_are_refused()
    ensures { ChangesAreRefused }
{}

/// Why a backup isn't started.
pub fn backups_are_refused()
    ensures { BackupsAreRefused }
{}

/// Serials, memory and numbers of events end.
pub fn ends_of_means_are_refused()
    ensures { EndsOfMeansAreRefused }
{}

/// Queries list jobs and nodes.
pub fn lists_show_what_runs()
    ensures { ListsShowWhatRuns }
{}

/// A bitmap that an image doesn't vouch for can only be removed.
pub fn untrusted_bitmaps_are_inconsistent()
    ensures { UntrustedBitmapsAreInconsistent }
{}

/// A bitmap whose span isn't known gives no base.
pub fn unknown_spans_give_no_base()
    ensures { UnknownSpansGiveNoBase }
{}

/// A session goes on from what the one before it stored.
pub fn sessions_follow_each_other()
    ensures { SessionsFollowEachOther }
{}

/// What a closing stores.
pub fn closings_keep_persistent_bitmaps()
    ensures { ClosingsKeepPersistentBitmaps }
{}

/// How a monitor begins.
pub fn monitors_negotiate()
    ensures { MonitorsNegotiate }
{}

/// Why a message is refused, in the order of the tests.
pub fn messages_are_refused()
    ensures { MessagesAreRefused }
{}

/// Why arguments are refused.
pub fn arguments_are_refused()
    ensures { ArgumentsAreRefused }
{}

/// Why a transaction's message is refused.
pub fn transactions_are_refused()
    ensures { TransactionsAreRefused }
{}

/// What messages command.
pub fn messages_are_commands()
    ensures { MessagesAreCommands }
{}

/// Replies have the ids of their messages.
pub fn ids_are_echoed()
    ensures { IdsAreEchoed }
{}

/// Texts of many brackets are refused.
pub fn deep_texts_are_refused()
    ensures { DeepTextsAreRefused }
{}

/// Where messages end in a stream.
pub fn messages_end_where_they_close()
    ensures { MessagesEndWhereTheyClose }
{}

/// A request through an export is one on its node.
pub fn exports_stand_for_nodes()
    ensures { ExportsStandForNodes }
{}

/// Why an export isn't added.
pub fn exports_are_refused()
    ensures { ExportsAreRefused }
{}

/// How lines are written.
pub fn lines_have_one_spelling()
    ensures { LinesHaveOneSpelling }
{}

/// What a record of a run has.
pub fn requests_are_recorded_on_their_nodes()
    ensures { RequestsAreRecordedOnTheirNodes }
{}

/// Backups that follow one another are a chain.
pub fn runs_make_chains()
    ensures { RunsMakeChains }
{}

/// A backup has the bytes of its point.
pub fn restored_bytes_are_of_the_point()
    ensures { RestoredBytesAreOfThePoint }
{}

/// Steps that the machine may take.
pub fn steps_may_be_taken()
    ensures { StepsMayBeTaken }
{}

/// A disk that a crash left shows writes of whole sectors.
pub fn settling_writes_what_differs()
    ensures { SettlingWritesWhatDiffers }
{}

/// A sync that is answered leaves one disk alone.
pub fn syncs_leave_the_last_disk()
    ensures { SyncsLeaveTheLastDisk }
{}

/// Clients negotiate.
pub fn negotiations()
    ensures { Negotiations }
{}

/// A client asks for a bitmap's status.
pub fn status_over_wire()
    ensures { StatusOverWire }
{}

/// Clients' requests are answered.
pub fn requests_over_wire()
    ensures { RequestsOverWire }
{}

/// The monitor is served beside them.
pub fn monitor_over_wire()
    ensures { MonitorOverWire }
{}

/// Connections are hung up.
pub fn connections_end()
    ensures { ConnectionsEnd }
{}

/// Each change of a bitmap changes its span by its rule.
pub fn spans_follow_their_rules()
    ensures { SpansFollowTheirRules }
{}

/// Clients are served as their bytes come, by the machine's own answers.
pub fn clients_are_served_in_turn()
    ensures { ClientsAreServedInTurn }
{}

/// A job runs while nothing comes.
pub fn idle_takings_serve_jobs()
    ensures { IdleTakingsServeJobs }
{}

/// A closing is told to the monitor that is there.
pub fn closings_are_told()
    ensures { ClosingsAreTold }
{}
