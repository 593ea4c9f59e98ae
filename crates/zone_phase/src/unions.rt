//! Squares that a cell leaves for two lists of layers together.
ghost use Rattle.std.specs.Prelude.{◌≡◌, ◌++◌, ℕ, List, [], get_or, IfOk};
ghost use Rattle.geo_base.specs.declared.layer.LayerKey.{LayerKey};
ghost use Rattle.cell_graph.specs.Linked.{Linked};
ghost use Rattle.deep_tables.specs.Frames.{IsFramedOpen};
ghost use Rattle.flat_layout.specs.Layers.{Formula, Empty, inputs};
ghost use Rattle.zone_phase.specs.Names.{AreNameOpens};

use geo_base::Op;
use rect_sets::RectSet;
use std::alloc::{AllocError, Global};

/// The union of what is left for two lists of layers: that of a name that reads two others,
/// or of a device rule.
pub fn both_zones(alloc: Global, a: &RectSet, b: &RectSet) -> Result<RectSet, AllocError>
    ensures { IfOk result (λ r. (n : ℕ) (d : Linked) (xs ys : List LayerKey) (cell : ℕ)
        → IsFramedOpen n d xs cell a.now → IsFramedOpen n d ys cell b.now
        → IsFramedOpen n d (xs ++ ys) cell r) }
{
    let set = a.combined(alloc, b, Op::Or)?;
    Ok(set)
}

/// The set of a name, and none past the last.
pub fn set_at<'a>(sets: &'a [RectSet], name: u32, none: &'a RectSet) -> &'a RectSet
    requires { none.now ≡ [] }
    ensures { result.now ≡ get_or sets.now name [] }
{
    sets.get(name as usize).unwrap_or(none)
}

/// The set of a name once more. Linear.
pub fn copy_at(alloc: Global, sets: &[RectSet], name: u32) -> Result<RectSet, AllocError>
    ensures { IfOk result (λ r. r ≡ get_or sets.now name []) }
{
    let none = RectSet::empty(alloc);
    let set = set_at(sets, name, &none).try_clone(alloc)?;
    Ok(set)
}

/// The union of what is left for a name and of others.
pub fn with_name(
    alloc: Global,
    sets: &[RectSet],
    name: u32,
    others: &RectSet,
) -> Result<RectSet, AllocError>
    ensures { IfOk result (λ r. (n : ℕ) (d : Linked) (cell : ℕ) (trees : List Formula)
        (ys : List LayerKey) → AreNameOpens n d cell trees sets.now
        → IsFramedOpen n d ys cell others.now
        → IsFramedOpen n d (inputs (get_or trees name Empty) ++ ys) cell r) }
{
    let none = RectSet::empty(alloc);
    let set = both_zones(alloc, set_at(sets, name, &none), others)?;
    Ok(set)
}
