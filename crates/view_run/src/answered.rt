//! What was compared, with its circuits as they were answered.

ghost use Rattle.std.specs.Prelude.{◌≡◌, true, IfOk, IfSome};
ghost use Rattle.device_merge.specs.Merged.{IsNarrow};
ghost use Rattle.net_model.specs.Rows.{plain_netlist};
ghost use Rattle.view_file.specs.Layout.{IsSmallPicture};
ghost use Rattle.view_run.specs.Answered.{IsShownAgain};
ghost use Rattle.view_run.specs.Views.{IsShown};

use device_merge::{MergedAgain, merge_again};
use match_report::Compared;
use std::alloc::{AllocError, Global};
use view_file::Picture;
use view_picture::answered_picture;

/// What was compared, with its circuits as they were answered, and the picture of those of the
/// layout.
#[derive(Drop)]
pub struct Answered {
    pub compared: Option<Compared>,
    pub picture: Picture,
}

// The same answers over both sides merged once more.
fn merged(alloc: Global, found: Compared, picture: Picture) -> Result<Answered, AllocError>
    requires left { IsNarrow (plain_netlist found.left) }
    requires right { IsNarrow (plain_netlist found.right) }
    requires small { IsSmallPicture picture }
    ensures shown { IfOk result (λ a. IsShownAgain found a.compared picture a.picture) }
    ensures small { IfOk result (λ a. IsSmallPicture a.picture) }
{
    let near = merge_again(alloc, &found.left)?;
    let far = merge_again(alloc, &found.right)?;
    let lefts = found.left.circuits.as_slice();
    let circuits = near.netlist.circuits.as_slice();
    let picture = answered_picture(alloc, picture, lefts, circuits)?;
    let MergedAgain { netlist: left, .. } = near;
    let MergedAgain { netlist: right, .. } = far;
    let Compared {
        merged_again,
        answers,
        ..
    } = found;
    Ok(Answered {
        compared: Some(Compared {
            left,
            right,
            merged_again,
            answers,
        }),
        picture,
    })
}

/// What was compared, over the picture of the aligned circuits of the layout, as it was answered:
/// where both sides were merged once more, so they are here. Linear.
pub fn as_answered(
    alloc: Global,
    compared: Option<Compared>,
    picture: Picture,
) -> Result<Answered, AllocError>
    requires narrow { IfSome compared (λ c. c.merged_again ≡ true
        → IsNarrow (plain_netlist c.left) × IsNarrow (plain_netlist c.right)) }
    requires small { IsSmallPicture picture }
    ensures shown { IfOk result (λ a. IsShown compared a.compared picture a.picture) }
    ensures small { IfOk result (λ a. IsSmallPicture a.picture) }
{
    match compared {
        Some(found) => {
            if found.merged_again {
                let again = merged(alloc, found, picture)?;
                return Ok(again);
            }
            Ok(Answered {
                compared: Some(found),
                picture,
            })
        }
        None => Ok(Answered {
            compared: None,
            picture,
        }),
    }
}
