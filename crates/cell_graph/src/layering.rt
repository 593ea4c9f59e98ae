//! Further layers for the cells of a design: the cells become drafts again, and these are linked.

ghost use Rattle.std.specs.Prelude.{◌≡◌, ◌<◌, ◌++◌, length, IfOk, IfErr};
ghost use Rattle.cell_graph.specs.Parts.{AreInside};
ghost use Rattle.cell_graph.specs.Layering.{HaveNames, AreFurther, IsLayeredDesign, IsRefOf};
ghost use Rattle.cell_graph.specs.Layering.{AreRefsOf, IsDraftOf, AreDraftsTo, cell_names};
ghost use Rattle.cell_graph.specs.Layering.{IsLayerFault, has_key, other_layers, ArePlacesInside};
ghost use Rattle.cell_graph.specs.Layering.{NamesLaw, SameNamesLaw, OwnKeptLaw, OwnFurtherLaw};

use crate::cells::{CellPart, OwnLayer, Place, is_same_key};
use crate::design::Design;
use crate::drafts::{CellDraft, DraftRef, LinkFault};
use geo_base::LayerKey;
use net_names::Name;
use std::alloc::{AllocError, Global};
use std::mem;

fn has_key(keys: &[LayerKey], key: LayerKey) -> bool
    ensures { result ≡ has_key keys.now key }
{
    keys.iter().any(|k| is_same_key(*k, key))
}

// The layers, with further ones in place of those of the keys.
fn replaced(
    layers: Vec<OwnLayer>,
    keys: &[LayerKey],
    further: Vec<OwnLayer>,
) -> Result<Vec<OwnLayer>, AllocError>
    ensures { IfOk result (λ v. v.items ≡ other_layers keys.now layers.items ++ further.items) }
{
    let mut kept = layers;
    let mut more = further;
    kept.retain(|layer| !has_key(keys, layer.key));
    kept.append(&mut more)?;
    Ok(kept)
}

fn names_of(alloc: Global, cells: &[CellPart]) -> Result<Vec<Name>, AllocError>
    ensures { IfOk result (λ v. v.items ≡ cell_names cells.now) }
{
    let mut names = Vec::new(alloc);
    for cell in cells {
        let name = cell.name.try_clone(alloc)?;
        names.push(name)?;
    }
    Ok(names)
}

// The reference by the name of the placed cell.
fn ref_of(alloc: Global, names: &[Name], place: &Place) -> Result<DraftRef, AllocError>
    requires { place.now.cell < length names.now }
    ensures { IfOk result (IsRefOf names.now place.now) }
{
    let cell = names[place.cell as usize].try_clone(alloc)?;
    Ok(DraftRef {
        cell,
        motion: place.motion,
        columns: place.columns,
        rows: place.rows,
        column_step: place.column_step,
        row_step: place.row_step,
    })
}

fn refs_of(alloc: Global, names: &[Name], places: &[Place]) -> Result<Vec<DraftRef>, AllocError>
    requires { AreInside places.now (length names.now) }
    ensures { IfOk result (λ v. AreRefsOf names.now places.now v.items) }
{
    let mut refs = Vec::new(alloc);
    for place in places {
        let named = ref_of(alloc, names, place)?;
        refs.push(named)?;
    }
    Ok(refs)
}

fn draft_of(
    alloc: Global,
    names: &[Name],
    cell: CellPart,
    keys: &[LayerKey],
    further: Vec<OwnLayer>,
) -> Result<CellDraft, AllocError>
    requires { AreInside cell.places.items (length names.now) }
    ensures { IfOk result (IsDraftOf names.now keys.now further.items cell) }
{
    let refs = refs_of(alloc, names, &cell.places)?;
    let layers = replaced(cell.layers, keys, further)?;
    Ok(CellDraft {
        name: cell.name,
        layers,
        texts: cell.texts,
        refs,
    })
}

fn drafts_of(
    alloc: Global,
    names: &[Name],
    cells: Vec<CellPart>,
    keys: &[LayerKey],
    further: Vec<Vec<OwnLayer>>,
) -> Result<Vec<CellDraft>, AllocError>
    requires inside { ArePlacesInside cells.items (length names.now) }
    requires further { length further.items ≡ length cells.items }
    ensures { IfOk result (λ v. AreDraftsTo names.now cells.items keys.now further.items
        (length cells.items) v.items) }
{
    let mut further = further;
    let mut drafts = Vec::new(alloc);
    let mut i = 0;
    for cell in cells {
        let more = mem::replace(&mut further[i], Vec::new(alloc));
        let draft = draft_of(alloc, names, cell, keys, more)?;
        drafts.push(draft)?;
        i += 1;
    }
    Ok(drafts)
}

impl Design {
    /// The design with further layers: for each cell a list with one for each key, in place of what
    /// it had under these. Hulls and indexes are found anew. A hull that reaches out of range is
    /// refused by its cell's name. It takes as long as to link the cells.
    pub fn with_layers(
        self,
        alloc: Global,
        keys: &[LayerKey],
        further: Vec<Vec<OwnLayer>>,
    ) -> Result<Design, LinkFault>
        requires names { HaveNames self.cells }
        requires further { AreFurther self.cells keys.now further.items }
        ensures design { IfOk result (IsLayeredDesign self keys.now further.items) }
        ensures fault { IfErr result (IsLayerFault self.cells keys.now further.items) }
    {
        self.sound();
        let way = self.way();
        let top = self.name(self.top()).try_clone(alloc)?;
        let cells = self.into_cells();
        let names = names_of(alloc, &cells)?;
        let drafts = drafts_of(alloc, &names, cells, keys, further)?;
        let linked = Design::link(alloc, drafts, Some(&top))?;
        Ok(linked.keeping(way))
    }
}

/// What holds of the cells of a design with further layers.
pub fn layering_laws()
    ensures names { NamesLaw }
    ensures same_names { SameNamesLaw }
    ensures own_kept { OwnKeptLaw }
    ensures own_further { OwnFurtherLaw }
{}
