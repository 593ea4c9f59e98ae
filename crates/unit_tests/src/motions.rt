//! Squares, rectangles and nested references under each turn, worked out by hand.

use geo_base::{Motion, Point, Rect, Square, Turn};

const SQUARE: Square = Square { x: 3, y: 1 };

const RECT: Rect = Rect {
    x1: 3,
    y1: 1,
    x2: 5,
    y2: 2,
};

/// A turn, and where it takes the square and the rectangle, worked out with pen and paper.
static TURNS: [(Turn, Square, Rect); 8] = [
    (
        Turn::R0,
        Square { x: 3, y: 1 },
        Rect {
            x1: 3,
            y1: 1,
            x2: 5,
            y2: 2,
        },
    ),
    (
        Turn::R90,
        Square { x: -2, y: 3 },
        Rect {
            x1: -2,
            y1: 3,
            x2: -1,
            y2: 5,
        },
    ),
    (
        Turn::R180,
        Square { x: -4, y: -2 },
        Rect {
            x1: -5,
            y1: -2,
            x2: -3,
            y2: -1,
        },
    ),
    (
        Turn::R270,
        Square { x: 1, y: -4 },
        Rect {
            x1: 1,
            y1: -5,
            x2: 2,
            y2: -3,
        },
    ),
    (
        Turn::M0,
        Square { x: 3, y: -2 },
        Rect {
            x1: 3,
            y1: -2,
            x2: 5,
            y2: -1,
        },
    ),
    (
        Turn::M90,
        Square { x: 1, y: 3 },
        Rect {
            x1: 1,
            y1: 3,
            x2: 2,
            y2: 5,
        },
    ),
    (
        Turn::M180,
        Square { x: -4, y: 1 },
        Rect {
            x1: -5,
            y1: 1,
            x2: -3,
            y2: 2,
        },
    ),
    (
        Turn::M270,
        Square { x: -2, y: -4 },
        Rect {
            x1: -2,
            y1: -5,
            x2: -1,
            y2: -3,
        },
    ),
];

// One square and one rectangle off both axes under each turn, and a shift.
#[test]
fn eight_turns(rt: HostRuntime) {
    for (turn, square, rect) in &TURNS {
        let turn = *turn;
        let still = Motion { turn, dx: 0, dy: 0 };
        assert!(rt; still.square(SQUARE) == *square, "square under {turn:?}");
        assert!(rt; still.rect(RECT) == *rect, "rectangle under {turn:?}");
        let (dx, dy) = (100, -40);
        let moved = Motion { turn, dx, dy }.square(SQUARE);
        assert!(rt;
            Some(moved.x) == square.x.checked_add(100),
            "shifted under {turn:?}"
        );
        assert!(rt;
            Some(moved.y) == square.y.checked_sub(40),
            "shifted under {turn:?}"
        );
    }
}

// A corner goes where a reference's mirror, angle and origin take it, and two references nest.
#[test]
fn nested_references(rt: HostRuntime) {
    let inner = Motion {
        turn: Turn::M90,
        dx: 10,
        dy: 20,
    };
    let outer = Motion {
        turn: Turn::R270,
        dx: -5,
        dy: 7,
    };
    let corner = Point { x: 3, y: 1 };
    assert!(rt; inner.point(corner) == Point { x: 11, y: 23 });
    assert!(rt; outer.point(Point { x: 11, y: 23 }) == Point { x: 18, y: -4 });
    let both = inner.then(&outer);
    assert!(rt;
        both == Motion {
            turn: Turn::M0,
            dx: 15,
            dy: -3
        }
    );
    assert!(rt;
        inner.inverse()
            == Motion {
                turn: Turn::M90,
                dx: -20,
                dy: -10
            }
    );
    assert!(rt;
        outer.inverse()
            == Motion {
                turn: Turn::R90,
                dx: 7,
                dy: 5
            }
    );
}
