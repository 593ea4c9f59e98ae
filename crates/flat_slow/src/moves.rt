//! Where a motion takes a square, and which square it takes there.

ghost use Rattle.std.specs.Prelude.{◌≡◌, IfSome};
ghost use Rattle.geo_base.specs.Motions.{moved_square, turned_x, turned_y};

use geo_base::{Motion, Square, Turn};

fn turned(turn: Turn, s: Square) -> Square
    ensures x { result.x ≡ turned_x turn s.x s.y }
    ensures y { result.y ≡ turned_y turn s.x s.y }
{
    let Square { x, y } = s;
    match turn {
        Turn::R0 => s,
        Turn::R90 => Square { x: -1 - y, y: x },
        Turn::R180 => Square {
            x: -1 - x,
            y: -1 - y,
        },
        Turn::R270 => Square { x: y, y: -1 - x },
        Turn::M0 => Square { x, y: -1 - y },
        Turn::M90 => Square { x: y, y: x },
        Turn::M180 => Square { x: -1 - x, y },
        Turn::M270 => Square {
            x: -1 - y,
            y: -1 - x,
        },
    }
}

fn unturned(turn: Turn, s: Square) -> Square
    ensures x { turned_x turn result.x result.y ≡ s.x }
    ensures y { turned_y turn result.x result.y ≡ s.y }
{
    match turn {
        Turn::R90 => turned(Turn::R270, s),
        Turn::R270 => turned(Turn::R90, s),
        _ => turned(turn, s),
    }
}

/// Where the motion takes the square.
pub fn image(m: &Motion, q: Square) -> Option<Square>
    ensures { IfSome result (λ r. r ≡ moved_square m.now q) }
{
    let s = turned(m.turn, q);
    Some(Square {
        x: s.x.checked_add(m.dx)?,
        y: s.y.checked_add(m.dy)?,
    })
}

/// The square that the motion takes to this one.
pub fn origin(m: &Motion, q: Square) -> Option<Square>
    ensures { IfSome result (λ r. moved_square m.now r ≡ q) }
{
    let x = q.x.checked_sub(m.dx)?;
    let y = q.y.checked_sub(m.dy)?;
    Some(unturned(m.turn, Square { x, y }))
}
