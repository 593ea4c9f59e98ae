//! Laws of the definitions: a byte list has one answer.

ghost use Rattle.gds_layout.specs.Once.{NoFaultLaw, OneFaultLaw, OneLayoutLaw};

use gds_elements::one_meaning;
use rect_sets::one_list;

/// A byte list is read as one layout or has one first fault, never both, want of memory apart.
pub fn one_layout()
    ensures layout { OneLayoutLaw }
    ensures apart { NoFaultLaw }
    ensures fault { OneFaultLaw }
{
    one_meaning();
    one_list();
}
