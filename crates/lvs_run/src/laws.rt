//! Laws of a run's outcome.

ghost use Rattle.lvs_run.specs.Once.{ChipToldLaw, OneOutcomeLaw};
ghost use Rattle.lvs_run.specs.Verdicts.{MatchLaw, VerdictsLaw};

use netlist_file::{flat_netlist, one_netlist};
use pair_jobs::verdicts;
use report_file::{
    as_before, combined_alignable, exact_report, matched_report, matching, one_report,
    report_verdicts,
};
use run_layout::run_layouts;
use shapes_file::one_file;
use spice_text::written_laws;

/// Words and told input files have one answer, and where files are written, one list of files and
/// one summary line. The inputs of `make` are told by themselves.
pub fn one_outcome()
    ensures outcome { OneOutcomeLaw }
    ensures chip { ChipToldLaw }
{
    run_layouts();
    one_file();
    one_netlist();
    one_report();
    combined_alignable();
    written_laws();
    rule_text::laws();
}

/// The answer of a comparison is that of the flat layout's bad gates and of the reported pairs; and
/// the pairs of a reported match compose to a correspondence of the flat layout with the flattened
/// schematic.
pub fn compared_laws()
    ensures verdicts { VerdictsLaw }
    ensures matched { MatchLaw }
{
    flat_netlist();
    matched_report();
    exact_report();
    as_before();
    matching();
    combined_alignable();
    report_verdicts();
    verdicts();
}
