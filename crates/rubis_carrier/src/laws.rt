//! The laws of shops, each with its statement in specs/.

ghost use Rattle.rubis_carrier.specs.Laws.{AnswersComeInOrder, AsksAreAcceptedOnce, ComparingIsNeeded, GivenAgainOnlyWhereLost, IdsAreGivenOnce};
ghost use Rattle.rubis_carrier.specs.Laws.{NothingAcceptedIsLost, TheFirstSiteHolds, TheTokenComesBack, IdsAreToldOnce, ToldStaysInStream};
ghost use Rattle.rubis_carrier.specs.Laws.{WhatYieldsIsPublished, NobodyIsToldBoth, PublishedIsInStream, ToldOkIsKept, WhatIsOverStays, WhatIsToldIsTrue};
ghost use Rattle.rubis_carrier.specs.Events.{MayIsComputed};
ghost use Rattle.rubis_carrier.specs.Sites.{SitesGiveTheseNames};

/// Two messages of one site under one number, and two passes of one site under one turn, are the same one, in whatever folders and streams
/// they stand at that moment, or are under way. So a number is given again only where nothing is left that had the first. Not so of a site
/// of which a folder was ever opened that was compared with nothing, by a standby or with `--alone`, or took asks on after another one was
/// opened. A site is asked to compare no more than it has to: if any place has a greater number of it, and it takes asks all the same, a
/// number comes to be given twice.
pub fn ids_are_given_once()
    ensures once { IdsAreGivenOnce }
    ensures again { GivenAgainOnlyWhereLost }
    ensures needed { ComparingIsNeeded }
{}

/// Where an ask is told ok, its message stands in the folder under the id that is told; with `--published`, in the stream. As long as a
/// place where a message stood is whole, it stands there; and from a folder of its site, or that site's stream, each folder of another
/// site that isn't full comes to have it by starting folders and carrying packets alone. Over a server, of a site of which a folder was
/// opened uncompared, from the stream alone.
pub fn nothing_accepted_is_lost()
    ensures kept { ToldOkIsKept }
    ensures published { PublishedIsInStream }
    ensures stays { NothingAcceptedIsLost }
{}

/// The last pass of the token, if it stands in a folder of its sender that is whole, or in that site's stream: some steps lead to where
/// the site that it is for holds the token. Whatever was lost meanwhile, and whoever put what back: a pass is found by its turn. Before
/// the first pass site 0 holds the token.
pub fn the_token_comes_back()
    ensures back { TheTokenComesBack }
    ensures first { TheFirstSiteHolds }
{}

/// An ask of which the asker was told that it was refused, or that nothing was given to the site, stands nowhere, then and for ever. No
/// asker is told both that and ok, and no ask is accepted twice. Of any other ask its asker finds out: a site answers in the order in
/// which it was given asks, and one that is no more under way has its message by then, or never.
pub fn what_is_told_is_true()
    ensures never { WhatIsToldIsTrue }
    ensures one { NobodyIsToldBoth }
    ensures once { AsksAreAcceptedOnce }
    ensures order { AnswersComeInOrder }
    ensures over { WhatIsOverStays }
{}

/// The packets of a folder are what its site's records sent and took in; then the message that the site makes next, and the pass that
/// it makes next, have the names that they have in a shop, and it passes the token only where it holds it there.
pub fn sites_give_these_names()
    ensures { SitesGiveTheseNames }
{}

/// Any folder of a site that yields to a standby may take over, compared with nothing, while others of it go on. From where a site yields,
/// until it takes that back, all that is told ok of it stands in its stream, as long as that is whole; and no two asks are told one id
/// there, by whichever folders, since from the first takeover on a message is appended only as the next of its stream.
pub fn a_standby_takes_over()
    ensures once { IdsAreToldOnce }
    ensures stays { ToldStaysInStream }
    ensures yields { WhatYieldsIsPublished }
{}

/// Whether an event may happen is computed by a test.
pub fn may_is_computed()
    ensures { MayIsComputed }
{}
