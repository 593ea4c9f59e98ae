//! A layout and rules have one shapes file.

ghost use Rattle.shapes_file.specs.One.{NoFileLaw, OneFileLaw, OneWideLaw};

use rect_sets::one_list;

/// The shapes files of alike layouts by the same rules are the same, byte for byte, with as many
/// cells and rectangles; or there is none, for the same cell.
pub fn one_file()
    ensures file { OneFileLaw }
    ensures wide { OneWideLaw }
    ensures none { NoFileLaw }
{
    one_list();
}
