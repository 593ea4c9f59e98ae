//! The nodes of the marked classes, listed class by class.

ghost use Rattle.std.specs.Prelude.{◌≤◌, length, OnOk};
ghost use Rattle.match_rounds.specs.Classes.{AreClasses, node_count};
ghost use Rattle.match_rounds.specs.Marks.{AreListed};
ghost use Rattle.match_rounds.specs.Members.{AreMembers, IsCopied};

use crate::classes::Classes;
use std::alloc::AllocError;

/// The nodes of the marked classes, class by class, and where each class ends among them.
pub fn list_members(
    classes: &Classes,
    members: &mut Vec<u32>,
    ends: &mut Vec<usize>,
) -> Result<(), AllocError>
    requires classes { AreClasses classes.now (node_count classes.now) }
    requires listed { AreListed classes.now.marks }
    ensures { OnOk result (AreMembers classes.now members.new.items ends.new.items
        (length classes.now.marks.fresh.items)) }
{
    members.clear();
    ends.clear();
    for i in 0..classes.marks.fresh.len() {
        let class = classes.marks.fresh[i] as usize;
        let begin = classes.begin[class] as usize;
        let end = begin + classes.counts.size[class] as usize;
        copy_nodes(&classes.order.node_at, begin, end, members)?;
        ends.push(members.len())?;
    }
    Ok(())
}

// Adds the nodes at these places.
fn copy_nodes(
    nodes: &[u32],
    from: usize,
    to: usize,
    members: &mut Vec<u32>,
) -> Result<(), AllocError>
    requires from { from ≤ to }
    requires to { to ≤ length nodes.now }
    ensures { OnOk result (IsCopied members.old.items members.new.items nodes.now from to) }
{
    for k in from..to {
        members.push(nodes[k])?;
    }
    Ok(())
}
