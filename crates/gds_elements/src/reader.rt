//! What is read so far: the header, the open structure and the open element.

ghost use Rattle.std.specs.Prelude.{◌≡◌, ℕ, List, [], ◌∷◌, ◌++◌, map, replicate, true, false, OnOk};
ghost use Rattle.std.specs.List.{All};
ghost use Rattle.gds_records.specs.Records.{Records, NoRecords, ◌▸◌};
ghost use Rattle.gds_elements.specs.Faults.{Passes};
ghost use Rattle.gds_elements.specs.Fillable.{AreFillable};
ghost use Rattle.gds_elements.specs.Data.{exactly, points_of};
ghost use Rattle.gds_elements.specs.Meaning.{library_of, motion_of, open_cells, refs_by, text_at};
ghost use Rattle.gds_elements.specs.Meaning.{turn_of};
ghost use Rattle.gds_elements.specs.Reading.{Gains, Holds, HoldsElement, HoldsHeader};
ghost use Rattle.gds_elements.specs.Reading.{HoldsStructure, cell_seen, library_after, rec};
ghost use Rattle.gds_elements.specs.Reading.{refs_in};
ghost use Rattle.gds_elements.specs.Reading.{shape_seen, shapes_in, taken_cells, texts_in};

use crate::data::{exactly, trimmed};
use crate::element::{Element, Placing, box_form, outline_form, path_form};
use crate::library::{Library, RawCell, RawRef, RawShape, RawText};
use crate::points::first_of;
use crate::taken::{Taken, add_taken, nothing_taken};
use gds_records::kinds;
use geo_base::{LayerKey, Point};
use net_names::Name;
use std::alloc::{AllocError, Global};
use std::mem;
use std::snapshot::Snapshot;

/// What HEADER, BGNLIB, LIBNAME and UNITS say.
#[derive(Drop)]
pub struct Header {
    pub version: [u8; 2],
    pub dates: [u8; 24],
    pub name: Vec<u8>,
    pub units: [u8; 16],
}

impl Header {
    fn new(alloc: Global) -> Header
        ensures { HoldsHeader NoRecords result }
    {
        Header {
            version: [0; 2],
            dates: [0; 24],
            name: Vec::new(alloc),
            units: [0; 16],
        }
    }

    fn take_header(&mut self, alloc: Global, kind: u8, body: &[u8]) -> Result<(), AllocError>
        ensures { OnOk result ((before : Records) (form : ℕ) → HoldsHeader before self.old
            → HoldsHeader (before ▸ rec kind form body.now) self.new) }
    {
        match kind {
            kinds::HEADER => self.version = exactly(body),
            kinds::BGNLIB => self.dates = exactly(body),
            kinds::LIBNAME => self.name = Vec::from_slice(alloc, trimmed(body))?,
            kinds::UNITS => self.units = exactly(body),
            _ => {}
        }
        Ok(())
    }
}

/// What the open structure holds so far.
#[derive(Drop)]
pub struct Structure {
    pub dates: [u8; 24],
    pub name: Vec<u8>,
    pub shapes: Vec<RawShape>,
    pub texts: Vec<RawText>,
    pub refs: Vec<RawRef>,
}

impl Structure {
    fn new(alloc: Global, dates: [u8; 24]) -> Structure
        ensures begun { (before : Records) (form : ℕ) (body : List ℕ) → dates ≡ exactly 24 body
            → HoldsStructure (before ▸ rec 0x05 form body) result }
        ensures ended { dates ≡ replicate 24 0 → (before : Records) (form : ℕ) (body : List ℕ)
            → HoldsStructure (before ▸ rec 0x07 form body) result }
        ensures none { dates ≡ replicate 24 0 → HoldsStructure NoRecords result }
    {
        Structure {
            dates,
            name: Vec::new(alloc),
            shapes: Vec::new(alloc),
            texts: Vec::new(alloc),
            refs: Vec::new(alloc),
        }
    }

    /// Takes what a record that ends no element says.
    fn take_structure(&mut self, alloc: Global, kind: u8, body: &[u8]) -> Result<(), AllocError>
        requires element { (kind ≡ 0x11 → ⊥) }
        requires structure { (kind ≡ 0x07 → ⊥) }
        ensures { OnOk result ((before : Records) (form : ℕ) → HoldsStructure before self.old
            → HoldsStructure (before ▸ rec kind form body.now) self.new) }
    {
        match kind {
            kinds::BGNSTR => *self = Structure::new(alloc, exactly(body)),
            kinds::STRNAME => self.name = Vec::from_slice(alloc, trimmed(body))?,
            _ => {}
        }
        Ok(())
    }

    fn add_shape(&mut self, shape: RawShape) -> Result<(), AllocError>
        ensures { OnOk result (Gains self.old self.new (shape_seen shape ∷ []) [] []) }
    {
        self.shapes.push(shape)?;
        Ok(())
    }

    fn add_text(&mut self, key: LayerKey, at: Point, text: Vec<u8>) -> Result<(), AllocError>
        ensures { OnOk result (Gains self.old self.new [] (text_at key at text.items) []) }
    {
        if text.is_empty() {
            return Ok(());
        }
        self.texts.push(RawText { key, at, text })?;
        Ok(())
    }

    fn add_ref(
        &mut self,
        start: u8,
        placing: Placing,
        at: Point,
        text: Vec<u8>,
    ) -> Result<(), AllocError>
        ensures { OnOk result (Gains self.old self.new [] [] (refs_by start text.items (motion_of
            (turn_of placing.mirrored placing.quarter) at) placing.columns placing.rows
            placing.column_side placing.row_side)) }
    {
        if text.is_empty() {
            return Ok(());
        }
        let cell = Name::from_vec(text);
        match start {
            kinds::SREF => self.refs.push(placing.single(cell, at))?,
            kinds::AREF => self.refs.push(placing.array(cell, at))?,
            _ => {}
        }
        Ok(())
    }

    /// Adds the element that ends: a shape, a text or a reference. Nodes, and texts with an empty
    /// string, are dropped.
    fn add(&mut self, element: Element) -> Result<(), AllocError>
        ensures { OnOk result (Gains self.old self.new (shapes_in element) (texts_in element)
            (refs_in element)) }
    {
        let Element {
            start,
            drawing,
            placing,
            points,
            text,
        } = element;
        let key = drawing.key();
        let at = first_of(&points);
        match start {
            kinds::BOUNDARY => self.add_shape(RawShape {
                key,
                form: outline_form(points),
            }),
            kinds::PATH => self.add_shape(RawShape {
                key,
                form: path_form(drawing, points),
            }),
            kinds::BOX => self.add_shape(RawShape {
                key,
                form: box_form(points),
            }),
            kinds::TEXT => self.add_text(key, at, text),
            kinds::SREF | kinds::AREF => self.add_ref(start, placing, at, text),
            _ => Ok(()),
        }
    }
}

/// What is read so far: of the structures that are whole, those that weren't handed over.
#[derive(Drop)]
pub struct Reader {
    pub header: Header,
    pub structure: Structure,
    pub element: Element,
    pub cells: Vec<RawCell>,
    pub taken: Snapshot<Taken>,
}

impl Reader {
    /// Nothing is read.
    pub(crate) fn new(alloc: Global) -> Reader
        ensures holds { Holds NoRecords result }
        ensures taken { taken_cells result.taken.value ≡ [] }
    {
        Reader {
            header: Header::new(alloc),
            structure: Structure::new(alloc, [0; 24]),
            element: Element::open(alloc, 0),
            cells: Vec::new(alloc),
            taken: nothing_taken(),
        }
    }

    /// Ends the open element.
    fn end_element(&mut self, alloc: Global) -> Result<(), AllocError>
        ensures structure { OnOk result ((before : Records) (form : ℕ) (body : List ℕ)
            → HoldsElement before self.old.element → HoldsStructure before self.old.structure
            → HoldsStructure (before ▸ rec 0x11 form body) self.new.structure) }
        ensures element { OnOk result ((before : Records) (form : ℕ) (body : List ℕ)
            → HoldsElement (before ▸ rec 0x11 form body) self.new.element) }
        ensures rest { OnOk result ((self.new.header ≡ self.old.header) × (self.new.cells
            ≡ self.old.cells)) }
        ensures taken { OnOk result (self.new.taken ≡ self.old.taken) }
    {
        let element = mem::replace(&mut self.element, Element::open(alloc, 0));
        self.structure.add(element)
    }

    /// Ends the open structure.
    fn end_structure(&mut self, alloc: Global) -> Result<(), AllocError>
        ensures structure { OnOk result ((before : Records) (form : ℕ) (body : List ℕ)
            → HoldsStructure (before ▸ rec 0x07 form body) self.new.structure) }
        ensures cells { OnOk result ((before : Records)
            → HoldsStructure before self.old.structure → map cell_seen self.new.cells.items
            ≡ map cell_seen self.old.cells.items ++ open_cells before) }
        ensures rest { OnOk result ((self.new.header ≡ self.old.header) × (self.new.element
            ≡ self.old.element)) }
        ensures taken { OnOk result (self.new.taken ≡ self.old.taken) }
    {
        let Structure {
            dates,
            name,
            shapes,
            texts,
            refs,
        } = mem::replace(&mut self.structure, Structure::new(alloc, [0; 24]));
        if name.is_empty() {
            return Ok(());
        }
        self.cells.push(RawCell {
            dates,
            name: Name::from_vec(name),
            shapes,
            texts,
            refs,
        })?;
        Ok(())
    }

    /// Takes what a record says that passes; its points are read already.
    pub(crate) fn take_record(
        &mut self,
        alloc: Global,
        kind: u8,
        body: &[u8],
        points: Vec<Point>,
    ) -> Result<(), AllocError>
        requires { kind ≡ 0x10 → points.items ≡ points_of body.now }
        ensures holds { OnOk result ((before : Records) (form : ℕ) → Holds before self.old → Holds
            (before ▸ rec kind form body.now) self.new) }
        ensures taken { OnOk result (self.new.taken ≡ self.old.taken) }
    {
        self.header.take_header(alloc, kind, body)?;
        if kind == kinds::ENDEL {
            self.end_element(alloc)?;
            return Ok(());
        }
        self.element.next(alloc, kind, body, points)?;
        if kind == kinds::ENDSTR {
            self.end_structure(alloc)?;
            return Ok(());
        }
        self.structure.take_structure(alloc, kind, body)?;
        Ok(())
    }

    /// Hands over the structures that are whole.
    pub(crate) fn take_cells(&mut self, alloc: Global) -> Vec<RawCell>
        ensures holds { (rs : Records) → Holds rs self.old → Holds rs self.new }
        ensures taken { taken_cells self.new.taken.value ≡ taken_cells self.old.taken.value
            ++ map cell_seen result.items }
        ensures fillable { (rs : Records) → Holds rs self.old → Passes rs → All AreFillable
            (map cell_seen result.items) }
    {
        let cells = mem::replace(&mut self.cells, Vec::new(alloc));
        add_taken(&mut self.taken, &cells);
        cells
    }

    /// What is read, as a library, without the structures handed over.
    pub(crate) fn library(self) -> Library
        ensures { (rs : Records) → Holds rs self
            → library_after (taken_cells self.taken.value) result ≡ library_of rs }
    {
        let Reader { header, cells, .. } = self;
        let Header {
            version,
            dates,
            name,
            units,
        } = header;
        Library {
            version,
            dates,
            name,
            units,
            cells,
        }
    }
}
