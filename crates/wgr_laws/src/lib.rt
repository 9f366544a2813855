//! What follows from the definitions that the calls on a network meet. Each function does nothing:
//! its contract is the law.
#![tactic(auto)]

ghost use Rattle.wgr_laws.specs.Laws.{PartsMakeOneNetwork, PeersAreAMap, RoutesAreAMap};
ghost use Rattle.wgr_laws.specs.Laws.{AssignedLeads, AssignedOthers, PutOthers, PutStands, RemovedGone, RemovedOthers};
ghost use Rattle.wgr_laws.specs.Laws.{LowestIsFree, LowestIsLeast, NoneIsFull};
ghost use Rattle.wgr_laws.specs.Laws.{LongestOwns, MatchIsLongest, NoMatchIsNone, NobodyOwns, OwnerHasLongest, PeersOwnTheirs};
ghost use Rattle.wgr_laws.specs.Laws.{RoutesElsewhere, RoutesGoElsewhere, RoutesLead, RoutesYield};
ghost use Rattle.wgr_laws.specs.Laws.{LiveIsFound, LiveRoutesLead, LiveUntil, OverStaysOver, SweepsAreUnseen};
ghost use Rattle.wgr_laws.specs.Laws.{ChangesLeaveLive, ExpiredNeverReturn, OwnersStand, RepliesShowLive};
ghost use Rattle.wgr_laws.specs.Laws.{CommandsKeepTheForms, CommandsKeepTheRules, LivePeersKeepTheRules, ReadingChangesNothing};
ghost use Rattle.wgr_laws.specs.Laws.{OtherPeersStay, OtherRoutesStay, SettingsStay};
ghost use Rattle.wgr_laws.specs.Laws.{AddressesAreOwn, KeysAreOwn, RunsKeepTheRules};
ghost use Rattle.wgr_laws.specs.Laws.{RevokedIsGone, RevokedOwnsNothing};
ghost use Rattle.wgr_laws.specs.Laws.{NextOnlyRises, NumbersAreGivenOnce, NumbersKeepTheirKeys};
ghost use Rattle.wgr_laws.specs.PeerLaws.{AddedAsAsked, AddedCounts, MovedAlone, RenewedAlone, RepliesShowWhatStands, RoutesStay};
ghost use Rattle.wgr_laws.specs.AdoptionLaws.{StandingPeersStay, UnnamedRoutesStay, UnseenPeersStay};
ghost use Rattle.wgr_laws.specs.AdoptionLaws.{LinesArePeers, NewPeersAreLines};
ghost use Rattle.wgr_laws.specs.AdoptionLaws.{AdoptRefusals, AdoptionsAreCounted, OtherServersAreRefused};
ghost use Rattle.wgr_laws.specs.AdoptedAgain.{AdoptionRepeats, AdoptionRepeatsLater};
ghost use Rattle.wgr_laws.specs.FirstAdoption.{AdoptionIsFaithful, AdoptionKeepsOwners, AdoptionKeepsUnowned};

/// The lists of a network are finite maps: where all lookups agree, they are equal. The order in
/// which the parts of a network come makes no difference.
pub fn lists_are_maps()
    ensures peers { PeersAreAMap }
    ensures routes { RoutesAreAMap }
    ensures parts { PartsMakeOneNetwork }
{}

/// Every accepted command leaves a network that keeps the rules, as does the end of leases.
pub fn commands_keep_the_rules()
    ensures commands { CommandsKeepTheRules }
    ensures live { LivePeersKeepTheRules }
{}

/// And it leaves the fields of each peer of their forms: keys, labels, ends of leases, counts.
pub fn commands_keep_the_forms()
    ensures { CommandsKeepTheForms }
{}

/// The address that is given where none is named is free, and none below it is. Where there is none
/// to give, no address is free.
pub fn lowest_is_least()
    ensures free { LowestIsFree }
    ensures least { LowestIsLeast }
    ensures full { NoneIsFull }
{}

/// The owner of an address is the peer of the longest allowed prefix that has it.
pub fn owner_is_longest()
    ensures found { MatchIsLongest }
    ensures none { NoMatchIsNone }
    ensures owner { OwnerHasLongest }
    ensures nobody { NobodyOwns }
    ensures unique { LongestOwns }
    ensures own { PeersOwnTheirs }
{}

/// A change at one key of a list is found there, and leaves all other keys as they were.
pub fn changes_are_at_one_key()
    ensures assigned { AssignedLeads }
    ensures assigned_others { AssignedOthers }
    ensures removed { RemovedGone }
    ensures removed_others { RemovedOthers }
    ensures put { PutStands }
    ensures put_others { PutOthers }
{}

/// The live network has the peers whose lease has no end or ends later, and the routes to them.
/// Whether others were removed before makes no difference to a change.
pub fn live_until_the_end()
    ensures found { LiveIsFound }
    ensures routes { LiveRoutesLead }
    ensures until { LiveUntil }
    ensures later { OverStaysOver }
    ensures unseen { SweepsAreUnseen }
{}

/// A command that only reads leaves the network as it is.
pub fn readings_change_nothing()
    ensures { ReadingChangesNothing }
{}

/// An accepted command leaves what it isn't on: the settings, the other live peers and their routes.
pub fn others_stay()
    ensures settings { SettingsStay }
    ensures peers { OtherPeersStay }
    ensures routes { OtherRoutesStay }
{}

/// A new peer is just what was asked for. A peer that moves gets another address, and one that is
/// renewed another end of its lease: it keeps all else, and every route stays.
pub fn only_what_is_asked_changes()
    ensures added { AddedAsAsked }
    ensures next { AddedCounts }
    ensures moved { MovedAlone }
    ensures renewed { RenewedAlone }
    ensures routes { RoutesStay }
{}

/// A peer in the reply to a change is exactly so in the network, with those routes.
pub fn replies_show_what_stands()
    ensures { RepliesShowWhatStands }
{}

/// After any commands, refused ones among them, the network keeps the rules: above all, no two
/// peers have an address or a key in common.
pub fn runs_keep_the_rules()
    ensures rules { RunsKeepTheRules }
    ensures addresses { AddressesAreOwn }
    ensures keys { KeysAreOwn }
{}

/// A number is given once, and to one key.
pub fn numbers_are_given_once()
    ensures next { NextOnlyRises }
    ensures once { NumbersAreGivenOnce }
    ensures keys { NumbersKeepTheirKeys }
{}

/// Whatever commands follow, a peer that was revoked neither exists nor owns an address again.
pub fn revoked_is_gone()
    ensures stands { RevokedIsGone }
    ensures owns { RevokedOwnsNothing }
{}

/// A peer whose lease is over is in no reply and owns no address; an accepted change removes it
/// for good.
pub fn expired_peers_are_gone()
    ensures replies { RepliesShowLive }
    ensures owners { OwnersStand }
    ensures changes { ChangesLeaveLive }
    ensures numbers { ExpiredNeverReturn }
{}

/// A route changes only the owners of its own addresses, and of those only where no longer
/// allowed prefix has the address.
pub fn routes_change_their_own()
    ensures elsewhere { RoutesElsewhere }
    ensures lead { RoutesLead }
    ensures yield_to { RoutesYield }
    ensures go_elsewhere { RoutesGoElsewhere }
{}

/// An accepted adoption changes nothing of an existing peer but its status, and that only where a
/// line has its key; a prefix that no line has leads where it led.
pub fn adoptions_keep_what_stands()
    ensures standing { StandingPeersStay }
    ensures unseen { UnseenPeersStay }
    ensures routes { UnnamedRoutesStay }
{}

/// After an accepted adoption each line's key is a peer's, and each new peer's key is a line's.
pub fn lines_become_peers()
    ensures lines { LinesArePeers }
    ensures new { NewPeersAreLines }
{}

/// The new peers have the next numbers, in order, and the reply has each; with the lines whose
/// key was held they are as many as the lines.
pub fn adoptions_are_counted()
    ensures { AdoptionsAreCounted }
{}

/// An adoption is refused where the interface is another, or for a line of the text, whose number
/// the refusal reports.
pub fn adoptions_are_refused()
    ensures refusals { AdoptRefusals }
    ensures other { OtherServersAreRefused }
{}

/// Adopting the same lines again changes nothing, until a lease ends.
pub fn adoptions_repeat()
    ensures now { AdoptionRepeats }
    ensures later { AdoptionRepeatsLater }
{}

/// A network without live peers that adopts the lines of an interface has their peers, and sends each
/// address where the interface sent it, except for the addresses that it gave to peers whose line
/// names none.
pub fn first_adoptions_are_faithful()
    ensures peers { AdoptionIsFaithful }
    ensures owners { AdoptionKeepsOwners }
    ensures unowned { AdoptionKeepsUnowned }
{}
