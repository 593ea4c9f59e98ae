//! A set that is there as a whole, as a layer of gates.

ghost use Rattle.rect_sets.specs.Near.{IsNearSet};

use crate::windows::GateLayer;
use geo_base::Rect;
use rect_sets::RectSet;
use std::alloc::{AllocError, Global};

/// A set that is there as a whole, as a layer.
#[derive(Drop)]
pub struct Whole {
    pub set: RectSet,
    ghost near: { IsNearSet set },
}

impl GateLayer for Whole {
    ghost use Rattle.gate_shapes.specs.Sets.{in_set};

    ghost keeps = { λ x q. in_set x.set q };

    fn near(&self, alloc: Global, window: Rect) -> Result<RectSet, AllocError> {
        let part = self.set.window(alloc, window)?;
        Ok(part)
    }

    ghost bounded = { λ x q e. x.near q e };
}
