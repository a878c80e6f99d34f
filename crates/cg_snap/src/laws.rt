//! The laws of snapshots and of plans. Each function takes and answers nothing: its contract is the law.
ghost use Rattle.cg_snap.specs.Decoder.{PulledIsClosed, PulledIsUpgraded};
ghost use Rattle.cg_snap.specs.GoingOnLaws.{AllAreDecoded, AllAreTold, FirstFault, NothingLeftOut, NothingStops, OneAllTold, OneTold, OwnFaults, OwnLines, PlainStopped, PlainUnstopped, ToldStays, UnstoppedCloses};
ghost use Rattle.cg_snap.specs.Headline.{EntriesOfTheBytes, ItemsOfTheBytes, OnePlanStop, OneStop};
ghost use Rattle.cg_snap.specs.Laws.{AnswersUp, ByTheWay, ClosedOnce, ClosedPlanOnce, EntriesPrinted, ItemsPrinted, KernelProfile, OneBegun, OneClosing, OneList, OnePlan, OnlyNuma, PlanIsOfItems, SnapIsOfEntries, SnapIsPrint, TwoClosed, TwoProfiles};
ghost use Rattle.cg_snap.specs.PlanDecoder.{PulledPlanIsClosed};
ghost use Rattle.cg_snap.specs.RoundTrip.{EntriesGivenBack, ItemsGivenBack, PlanEncodedTwice, SnapGivenBack};

/// The headline. However the bytes are cut, a decoder gives exactly the entries that they close, of the one snapshot
/// that they may become, or the items of the one plan; none of the bytes that it consumed stops the stream, and a
/// stream has one stop; and it holds no more than the record that is begun and what the whole records of the present
/// entry may hold. Encoding and then decoding gives the entries, or the items, back; and decoding a snapshot and then
/// encoding it gives its bytes back.
///
/// What a call does with the bytes that come, and with which stop it refuses one, `next` and `finish` of the decoders
/// say, and of a whole stream in pieces `decode_snapshot_pieces` and `decode_plan_pieces`.
pub fn headline()
    ensures entries { EntriesOfTheBytes }
    ensures items { ItemsOfTheBytes }
    ensures one_list { OneList }
    ensures one_plan { OnePlan }
    ensures one_stop { OneStop }
    ensures one_plan_stop { OnePlanStop }
    ensures entries_back { EntriesGivenBack }
    ensures snapshot_back { SnapGivenBack }
    ensures items_back { ItemsGivenBack }
    ensures plan_twice { PlanEncodedTwice }
{}

/// No text is the snapshot of two lists of entries, and a snapshot is its one list printed: the records of the
/// canonical lines of each entry. So printing the entries that were read gives the same bytes again. Entries have a
/// snapshot exactly where all are entries of its profile and no two adjacent ones have the same path; then they are
/// printed as one.
///
/// No text is the plan of two lists of items, and items of a profile, printed, are a plan of these items. So reading
/// what was printed gives them back. Only items of its profile have a plan.
pub fn one_list()
    ensures one { OneList }
    ensures printed { SnapIsPrint }
    ensures entries_printed { EntriesPrinted }
    ensures of_entries { SnapIsOfEntries }
    ensures one_plan { OnePlan }
    ensures items_printed { ItemsPrinted }
    ensures of_items { PlanIsOfItems }
{}

/// Entries of a profile that are encoded and then decoded in it are given back, unless a limit is passed; a snapshot
/// that is decoded and then encoded is given back byte for byte.
///
/// Items of a profile that are encoded and then decoded in it are given back. A plan that is decoded and then encoded
/// has the same items, perhaps in another spelling, and doing so twice gives what once gives.
pub fn round_trip()
    ensures entries { EntriesGivenBack }
    ensures snapshot { SnapGivenBack }
    ensures items { ItemsGivenBack }
    ensures plan_twice { PlanEncodedTwice }
{}

/// The bytes of a snapshot close one list of entries. What is begun after it is one, too: its lines, the record that
/// isn't ended, and its path, where it has a line.
pub fn closed_once()
    ensures entries { ClosedOnce }
    ensures parts { OneClosing }
    ensures begun { OneBegun }
{}

/// The bytes of a plan close one list of items.
pub fn closed_plan_once()
    ensures { ClosedPlanOnce }
{}

/// Where a text is a snapshot of two profiles, the entries that it has in the later one are those of the earlier one,
/// in order, each upgraded: raw lines are read by the kind of their file, and every other entry is itself. The same
/// holds of the entries that bytes close, so of what decoders of the two profiles gave that consumed the same bytes.
/// And of an entry that has a form in a profile `upgrade_to` answers this one, unless memory is wanted. For the second
/// profile only raw lines of `memory.numa_stat` are read, as nested.
pub fn two_profiles()
    ensures texts { TwoProfiles }
    ensures closed { TwoClosed }
    ensures pulled { PulledIsUpgraded }
    ensures answered { AnswersUp }
    ensures numa { OnlyNuma }
{}

/// Where a text is a snapshot of the second profile and of that of the kernel, the entries of the latter are those of
/// the former, in order, each upgraded. And what is upgraded by way of a profile is upgraded at once.
pub fn kernel_profile()
    ensures upgraded { KernelProfile }
    ensures at_once { ByTheWay }
{}

/// The bytes that a decoder of snapshots consumed close the entries that it gave, which are one list; some snapshot
/// goes on from them, and none of them stops the stream.
pub fn pulled_is_closed()
    ensures { PulledIsClosed }
{}

/// The bytes that a decoder of plans consumed close the items that it gave, which are one list; some plan goes on from
/// them, and none of them stops the stream.
pub fn pulled_plan_is_closed()
    ensures { PulledPlanIsClosed }
{}

/// What is told of a snapshot that is gone on with is one list, and what was told stays, however the bytes go on.
///
/// Where none of the bytes stops a snapshot, it is the entries that they close, or at the end all that they are the
/// snapshot of, and nothing is left out; and where nothing is left out, none of them does. Where a byte stops plain
/// reading, the first block that is left out is at fault at this byte and for this cause; before it are told the
/// entries that plain reading gives, and at most one more, which the byte closes. Each entry is what plain reading
/// gives of its block alone, and each block that is left out is at fault where plain reading of it alone stops.
pub fn going_on()
    ensures one_told { OneTold }
    ensures one_all_told { OneAllTold }
    ensures told_stays { ToldStays }
    ensures plain_unstopped { PlainUnstopped }
    ensures unstopped_closes { UnstoppedCloses }
    ensures nothing_left_out { NothingLeftOut }
    ensures all_are_told { AllAreTold }
    ensures nothing_stops { NothingStops }
    ensures all_are_decoded { AllAreDecoded }
    ensures plain_stopped { PlainStopped }
    ensures first_fault { FirstFault }
    ensures own_lines { OwnLines }
    ensures own_faults { OwnFaults }
{}
