//! The aligned pair of a layout and a schematic.
ghost use Rattle.std.specs.Prelude.{◌↔◌, ◌<◌, IfOk, IfSome, IsNone, length};
ghost use Rattle.net_align.specs.Compared.{AreAligned, AreCalleesFirst, AreComparable};
ghost use Rattle.net_align.specs.Compared.{HasNoPartner, IsAlignable, IsTopPartner};
ghost use Rattle.net_align.specs.Compared.{KeepsExpansions, is_compared};
ghost use Rattle.net_align.specs.Names.{left_names, right_names};
ghost use Rattle.net_align.specs.Paired.{ArePairsBelow};
ghost use Rattle.net_model.specs.Rows.{plain_netlist};
ghost use Rattle.plain_netlist.specs.Lists.{AreApart};

use crate::below::{Below, Selection, both_sides, walk_both};
use crate::pairs::{Marks, Pairs, find_pairs};
use crate::partners::find_partners;
use job_board::Crew;
use net_model::Netlist;
use net_names::Name;
use std::alloc::{AllocError, Global};
use std::thread::Threads;

/// A layout and a schematic made comparable: circuits of one position are a pair, and on the left
/// each stands behind those that it calls.
#[derive(Debug, Drop)]
pub struct Aligned {
    pub left: Netlist,
    pub right: Netlist,
}

/// The layout below its top and the schematic, made comparable; none where the top has no partner.
///
/// Partners are those that `same` names (the lines `same_circuits` of KLayout's scripts), else
/// circuits of one name, small letters being large ones; a top that neither gives a partner has the
/// one circuit of the schematic that no call names, unless a line names it. Circuits that the tops
/// don't call count for nothing. A circuit without a device in or below it is dropped, one without
/// a partner is flattened into its callers, and so are nets and pins dropped that hold nothing. The
/// nets of call k of a flattened circuit get `Xk/` before their names, k counted from 1.
///
/// Linear in what is made, where a flattened circuit counts once for each call, and in the names;
/// a crew of two or more works the two sides at once, with the same answer. Err only where memory
/// is refused or a list is longer than numbers of 32 bits count.
pub fn align<R: Threads, G>(
    alloc: Global,
    layout: &Netlist,
    top: u32,
    schematic: &Netlist,
    same: &[(Name, Name)],
    crew: &Crew<R, G>,
) -> Result<Option<Aligned>, AllocError>
    requires layout { IsAlignable (plain_netlist layout.now) }
    requires schematic { IsAlignable (plain_netlist schematic.now) }
    requires order { AreCalleesFirst (plain_netlist layout.now) }
    requires top { top < length layout.now.circuits.items }
    requires lefts { AreApart (left_names same.now) }
    requires rights { AreApart (right_names same.now) }
    ensures none { IfOk result (λ found. IsNone found
        ↔ HasNoPartner (plain_netlist layout.now) (plain_netlist schematic.now) top same.now) }
    ensures pair { IfOk result (λ found. IfSome found (λ a.
        AreAligned (plain_netlist layout.now) (plain_netlist schematic.now) top same.now
        (plain_netlist a.left) (plain_netlist a.right))) }
    ensures comparable { IfOk result (λ found. IfSome found (λ a.
        AreComparable (plain_netlist a.left) (plain_netlist a.right))) }
    ensures left_kept { IfOk result (λ found. IfSome found (λ a.
        KeepsExpansions (plain_netlist layout.now) (plain_netlist a.left))) }
    ensures right_kept { IfOk result (λ found. IfSome found (λ a.
        KeepsExpansions (plain_netlist schematic.now) (plain_netlist a.right))) }
{
    let of = find_partners(alloc, layout, top as usize, schematic, same)?;
    let Some(right_top) = of[top as usize] else {
        return Ok(None);
    };
    let below = walk_both(alloc, layout, top as usize, schematic, right_top, crew)?;
    let (left, right) = (&below.0, &below.1);
    let pairs = pairs_below(alloc, &of, top as usize, left, right)?;
    let lefts = Selection {
        netlist: layout,
        below: left,
        circuits: &pairs.lefts,
    };
    let rights = Selection {
        netlist: schematic,
        below: right,
        circuits: &pairs.rights,
    };
    let sides = both_sides(alloc, &lefts, &rights, crew)?;
    let (left, right) = sides;
    Ok(Some(Aligned { left, right }))
}

/// The circuit of the schematic that is the partner of the layout's top, as `align` finds it. Linear
/// in the names and the calls. Err only where memory is refused or a list is longer than numbers of
/// 32 bits count.
pub fn partner_of_top(
    alloc: Global,
    layout: &Netlist,
    top: u32,
    schematic: &Netlist,
    same: &[(Name, Name)],
) -> Result<Option<usize>, AllocError>
    requires schematic { IsAlignable (plain_netlist schematic.now) }
    requires top { top < length layout.now.circuits.items }
    requires lefts { AreApart (left_names same.now) }
    requires rights { AreApart (right_names same.now) }
    ensures { IfOk result (IsTopPartner (plain_netlist layout.now) (plain_netlist schematic.now)
        top same.now) }
{
    let of = find_partners(alloc, layout, top as usize, schematic, same)?;
    Ok(of[top as usize])
}

// The pairs of circuits that are compared. `of` has the partner of each circuit of the layout.
fn pairs_below(
    alloc: Global,
    of: &[Option<usize>],
    top: usize,
    left: &Below,
    right: &Below,
) -> Result<Pairs, AllocError>
    ensures { IfOk result (λ pairs. ArePairsBelow of.now (is_compared top left.now right.now)
        (length of.now) pairs.lefts.items pairs.rights.items) }
{
    let marks = Marks {
        left_reached: &left.reached,
        left_holds: &left.holds,
        right_reached: &right.reached,
        right_holds: &right.holds,
    };
    find_pairs(alloc, of, top, &marks)
}
