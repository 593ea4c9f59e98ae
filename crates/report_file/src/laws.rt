//! What a report says of the layout and the schematic.
ghost use Rattle.report_file.specs.Exact.{ExactReportLaw};
ghost use Rattle.report_file.specs.Helps.{SameMatchLaw};
ghost use Rattle.report_file.specs.Matched.{MatchedReportLaw, MatchingLaw};
ghost use Rattle.report_file.specs.Named.{TopPartnerLaw};
ghost use Rattle.report_file.specs.One.{OneReportLaw};
ghost use Rattle.report_file.specs.Partner.{LastPartnerLaw};
ghost use Rattle.report_file.specs.Verdicts.{AsBeforeLaw, BadGateLaw, CarriedPairLaw, KeptPairLaw};
ghost use Rattle.report_file.specs.Verdicts.{UndecidedLaw, UnevenPairLaw};

use crate::alignable::combined_alignable;
use align_laws::pairs;
use composed_laws::answers;
use headline_laws::flat_layouts;
use match_flow::device_counts;
use pair_jobs::{pair_answers, verdicts};
use pair_turns::alone_lines;
use table_laws::sound_netlist;

/// A layout, rules, netlists and bad gates have one report: one text, one number of pairs, one
/// outcome.
pub fn one_report()
    ensures { OneReportLaw }
{
    pairs();
    answers();
    verdicts();
    alone_lines();
}

/// Where a match is reported, no gate is bad, and the flat layout corresponds to the flattened
/// schematic; by rules that combine devices, where each class of alike ones is one on both sides.
pub fn matched_report()
    ensures { MatchedReportLaw }
{
    combined_alignable();
    sound_netlist();
    flat_layouts();
    pairs();
    pair_answers();
}

/// Whatever a report says, where the top has a partner the flat layout and the flattened schematic are
/// joined by what was compared.
pub fn matching()
    ensures { MatchingLaw }
{}

/// Where what differs is taken apart, a mismatch without bad gates says that the flat layout
/// corresponds to the flattened schematic in no way, unless a turn would have been too large; by
/// rules that combine devices, where each class of alike ones is one on both sides.
pub fn exact_report()
    ensures { ExactReportLaw }
{
    combined_alignable();
    flat_layouts();
    pairs();
    answers();
    pair_answers();
}

/// Where the rules don't say to take apart what differs, the report of a match is also the one of the
/// rules that say so.
pub fn same_match()
    ensures { SameMatchLaw }
{}

/// A bad gate makes a mismatch, and so does a pair with unequal numbers of devices of some class,
/// length and width. A match carries a correspondence, and a pair that has a correspondence never
/// differs. A report is undecided exactly where nothing makes a mismatch and some pair is
/// undecided.
pub fn report_verdicts()
    ensures bad { BadGateLaw }
    ensures uneven { UnevenPairLaw }
    ensures carried { CarriedPairLaw }
    ensures kept { KeptPairLaw }
    ensures undecided { UndecidedLaw }
{
    pairs();
    device_counts();
    pair_answers();
    verdicts();
}

/// Where the rules don't say to make devices one once more, or no pair differs without, the answers
/// of a report are those of the circuits as they are.
pub fn as_before()
    ensures { AsBeforeLaw }
{
    pairs();
    answers();
}

/// Beside the layout's top, a report names the top's partner in the schematic.
pub fn top_partner()
    ensures { TopPartnerLaw }
{}

/// Where no rule flattens a circuit that another one pairs, the top's partner by the rules is that of
/// the last comparison.
pub fn last_partner()
    ensures { LastPartnerLaw }
{
    pairs();
    alone_lines();
}
