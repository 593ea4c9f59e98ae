//! Rectangles by layer.

ghost use Rattle.std.specs.Prelude.{◌≡◌, ◌<◌, ◌||◌, ◌∷◌, [], ◌++◌, length, map, OnOk, IfOk};
ghost use Rattle.std.specs.List.{All};
ghost use Rattle.geo_base.specs.Layers.{is_same_key};
ghost use Rattle.geo_base.specs.Rects.{IsRect};
ghost use Rattle.geo_base.specs.declared.layer.LayerKey.{LayerKey};
ghost use Rattle.geo_base.specs.declared.shapes.Square.{Square};
ghost use Rattle.rect_sets.specs.Rects.{covers};
ghost use Rattle.gds_elements.specs.Fillable.{IsFillable};
ghost use Rattle.gds_elements.specs.Reading.{form_seen, shape_seen};
ghost use Rattle.gds_layout.specs.Shapes.{shape_covers, is_covering, with_key};
ghost use Rattle.gds_layout.specs.Piles.{ArePiles, Gains, IsPileAt, has_pile, keys_of};
ghost use Rattle.gds_layout.specs.Piles.{laid_rects, piles_cover};

use crate::keys::KeyTable;
use gds_elements::{RawShape, ShapeForm};
use geo_base::{LayerKey, Rect};
use poly_fill::{fill_boundary, fill_box, fill_path};
use rect_sets::RectSet;
use std::alloc::{AllocError, Global};

/// What was laid down on a layer. The set of a single shape is kept: it needs no second sweep.
/// Rectangles of several shapes may overlap.
#[derive(Drop)]
pub enum Laid {
    Nothing,
    One(RectSet),
    Many(Vec<Rect>),
}

/// What was laid down on a layer of this key.
#[derive(Drop)]
pub struct Pile {
    pub key: LayerKey,
    pub laid: Laid,
}

/// One pile for each layer on which something was laid, and the numbers of the piles by layer.
#[derive(Drop)]
pub struct Piles {
    pub keys: KeyTable,
    pub list: Vec<Pile>,
}

// The squares that a shape covers.
fn shape_set(alloc: Global, form: &ShapeForm) -> Result<RectSet, AllocError>
    requires { IsFillable (form_seen form.now) }
    ensures { IfOk result (λ r. (s : Square) → covers r s ≡ shape_covers (form_seen form.now) s) }
{
    match form {
        ShapeForm::Boundary(points) => fill_boundary(alloc, points),
        ShapeForm::Corners(corners) => fill_boundary(alloc, &corners.points()),
        ShapeForm::Path {
            points,
            half,
            begin,
            end,
        } => fill_path(alloc, points, *half, *begin, *end),
        ShapeForm::Box(rect) => fill_box(alloc, *rect),
    }
}

// Two lists of rectangles in one.
fn joined(alloc: Global, first: &[Rect], second: &[Rect]) -> Result<Vec<Rect>, AllocError>
    ensures { IfOk result (λ v. v.items ≡ first.now ++ second.now) }
{
    let mut rects = Vec::new(alloc);
    rects.extend_from_slice(first)?;
    rects.extend_from_slice(second)?;
    Ok(rects)
}

// Lays a shape's set on what was laid down.
fn lay(alloc: Global, laid: &mut Laid, set: RectSet) -> Result<(), AllocError>
    ensures { OnOk result (laid_rects laid.new ≡ laid_rects laid.old ++ set) }
{
    match laid {
        Laid::Nothing => *laid = Laid::One(set),
        Laid::One(first) => {
            let rects = joined(alloc, first.rects(), set.rects())?;
            *laid = Laid::Many(rects);
        }
        Laid::Many(rects) => rects.extend_from_slice(set.rects())?,
    }
    Ok(())
}

// Lays a shape's set on the pile of a number.
fn lay_on(
    alloc: Global,
    list: &mut Vec<Pile>,
    number: usize,
    set: RectSet,
) -> Result<(), AllocError>
    requires { number < length list.old.items }
    ensures { OnOk result (Gains number set list.old.items list.new.items) }
{
    lay(alloc, &mut list[number].laid, set)?;
    Ok(())
}

impl Piles {
    /// No piles.
    pub(crate) fn new(alloc: Global) -> Piles
        ensures piles { ArePiles result }
        ensures none { result.list.items ≡ [] }
    {
        Piles {
            keys: KeyTable::new(alloc),
            list: Vec::new(alloc),
        }
    }

    // The number of the layer's pile: of a new one, where it has none.
    fn number(&mut self, key: LayerKey) -> Result<usize, AllocError>
        requires { ArePiles self.old }
        ensures piles { OnOk result (ArePiles self.new) }
        ensures here { IfOk result (IsPileAt self.new.list.items key) }
        ensures keys { OnOk result (keys_of self.new.list.items
            ≡ with_key (keys_of self.old.list.items) key) }
        ensures covers { OnOk result ((k : LayerKey) (s : Square)
            → piles_cover self.new.list.items k s
            ≡ piles_cover self.old.list.items k s) }
        ensures has { OnOk result ((k : LayerKey) → has_pile self.new.list.items k
            ≡ (has_pile self.old.list.items k || is_same_key key k)) }
    {
        let number = self.keys.number(key);
        if number == self.list.len() {
            self.keys.add(key)?;
            self.list.push(Pile {
                key,
                laid: Laid::Nothing,
            })?;
        }
        Ok(number)
    }

    /// Lays down what a shape covers.
    pub(crate) fn add(&mut self, alloc: Global, shape: &RawShape) -> Result<(), AllocError>
        requires piles { ArePiles self.old }
        requires fillable { IsFillable (form_seen shape.now.form) }
        ensures piles { OnOk result (ArePiles self.new) }
        ensures keys { OnOk result (keys_of self.new.list.items
            ≡ with_key (keys_of self.old.list.items) shape.now.key) }
        ensures covers { OnOk result ((k : LayerKey) (s : Square)
            → piles_cover self.new.list.items k s
            ≡ (piles_cover self.old.list.items k s || is_covering k s (shape_seen shape.now))) }
        ensures has { OnOk result ((k : LayerKey) → has_pile self.new.list.items k
            ≡ (has_pile self.old.list.items k || is_same_key shape.now.key k)) }
    {
        let set = shape_set(alloc, &shape.form)?;
        let _sound = set.rects();
        let number = self.number(shape.key)?;
        lay_on(alloc, &mut self.list, number, set)?;
        Ok(())
    }
}
