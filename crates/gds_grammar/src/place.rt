//! Where a reader of records stands in the grammar: for each element its parts so far, the last of
//! which names the place.

ghost use Rattle.std.specs.Prelude.{◌≡◌};
ghost use Rattle.gds_grammar.specs.Pattern.{after};
ghost use Rattle.gds_grammar.specs.Left.{left_of, lefts_of, boundary_left, path_left, sref_left};
ghost use Rattle.gds_grammar.specs.Left.{aref_left, text_left, node_left, box_left, in_body};

use gds_records::kinds::*;

#[derive(Clone, Copy)]
pub enum BoundaryPlace {
    Start,
    Flags,
    Plex,
    Layer,
    Datatype,
    Points,
}

#[derive(Clone, Copy)]
pub enum PathPlace {
    Start,
    Flags,
    Plex,
    Layer,
    Datatype,
    Pathtype,
    Width,
    Begin,
    End,
    Points,
}

#[derive(Clone, Copy)]
pub enum SrefPlace {
    Start,
    Flags,
    Plex,
    Name,
    Strans,
    Mag,
    Angle,
}

#[derive(Clone, Copy)]
pub enum ArefPlace {
    Start,
    Flags,
    Plex,
    Name,
    Strans,
    Mag,
    Angle,
    Colrow,
}

#[derive(Clone, Copy)]
pub enum TextPlace {
    Start,
    Flags,
    Plex,
    Layer,
    Texttype,
    Presentation,
    Pathtype,
    Width,
    Strans,
    Mag,
    Angle,
    Xy,
}

#[derive(Clone, Copy)]
pub enum NodePlace {
    Start,
    Flags,
    Plex,
    Layer,
    Nodetype,
}

#[derive(Clone, Copy)]
pub enum BoxPlace {
    Start,
    Flags,
    Plex,
    Layer,
    Boxtype,
}

#[derive(Clone, Copy)]
pub enum Place {
    Start,
    Header,
    Begun,
    Named,
    Cells,
    CellBegun,
    InCell,
    Tail,
    Property,
    End,
    Boundary(BoundaryPlace),
    Path(PathPlace),
    Sref(SrefPlace),
    Aref(ArefPlace),
    Text(TextPlace),
    Node(NodePlace),
    Box(BoxPlace),
}

fn follow_boundary(place: BoundaryPlace, kind: u8) -> Option<Place>
    ensures { lefts_of result ≡ after kind (in_body (boundary_left place)) }
{
    match place {
        BoundaryPlace::Start => match kind {
            ELFLAGS => Some(Place::Boundary(BoundaryPlace::Flags)),
            PLEX => Some(Place::Boundary(BoundaryPlace::Plex)),
            LAYER => Some(Place::Boundary(BoundaryPlace::Layer)),
            _ => None,
        },
        BoundaryPlace::Flags => match kind {
            PLEX => Some(Place::Boundary(BoundaryPlace::Plex)),
            LAYER => Some(Place::Boundary(BoundaryPlace::Layer)),
            _ => None,
        },
        BoundaryPlace::Plex => match kind {
            LAYER => Some(Place::Boundary(BoundaryPlace::Layer)),
            _ => None,
        },
        BoundaryPlace::Layer => match kind {
            DATATYPE => Some(Place::Boundary(BoundaryPlace::Datatype)),
            _ => None,
        },
        BoundaryPlace::Datatype => match kind {
            XY => Some(Place::Boundary(BoundaryPlace::Points)),
            _ => None,
        },
        BoundaryPlace::Points => match kind {
            XY => Some(Place::Boundary(BoundaryPlace::Points)),
            PROPATTR => Some(Place::Property),
            ENDEL => Some(Place::InCell),
            _ => None,
        },
    }
}

fn follow_path(place: PathPlace, kind: u8) -> Option<Place>
    ensures { lefts_of result ≡ after kind (in_body (path_left place)) }
{
    match place {
        PathPlace::Start => match kind {
            ELFLAGS => Some(Place::Path(PathPlace::Flags)),
            PLEX => Some(Place::Path(PathPlace::Plex)),
            LAYER => Some(Place::Path(PathPlace::Layer)),
            _ => None,
        },
        PathPlace::Flags => match kind {
            PLEX => Some(Place::Path(PathPlace::Plex)),
            LAYER => Some(Place::Path(PathPlace::Layer)),
            _ => None,
        },
        PathPlace::Plex => match kind {
            LAYER => Some(Place::Path(PathPlace::Layer)),
            _ => None,
        },
        PathPlace::Layer => match kind {
            DATATYPE => Some(Place::Path(PathPlace::Datatype)),
            _ => None,
        },
        PathPlace::Datatype => match kind {
            PATHTYPE => Some(Place::Path(PathPlace::Pathtype)),
            WIDTH => Some(Place::Path(PathPlace::Width)),
            BGNEXTN => Some(Place::Path(PathPlace::Begin)),
            ENDEXTN => Some(Place::Path(PathPlace::End)),
            XY => Some(Place::Path(PathPlace::Points)),
            _ => None,
        },
        PathPlace::Pathtype => match kind {
            WIDTH => Some(Place::Path(PathPlace::Width)),
            BGNEXTN => Some(Place::Path(PathPlace::Begin)),
            ENDEXTN => Some(Place::Path(PathPlace::End)),
            XY => Some(Place::Path(PathPlace::Points)),
            _ => None,
        },
        PathPlace::Width => match kind {
            BGNEXTN => Some(Place::Path(PathPlace::Begin)),
            ENDEXTN => Some(Place::Path(PathPlace::End)),
            XY => Some(Place::Path(PathPlace::Points)),
            _ => None,
        },
        PathPlace::Begin => match kind {
            ENDEXTN => Some(Place::Path(PathPlace::End)),
            XY => Some(Place::Path(PathPlace::Points)),
            _ => None,
        },
        PathPlace::End => match kind {
            XY => Some(Place::Path(PathPlace::Points)),
            _ => None,
        },
        PathPlace::Points => match kind {
            XY => Some(Place::Path(PathPlace::Points)),
            PROPATTR => Some(Place::Property),
            ENDEL => Some(Place::InCell),
            _ => None,
        },
    }
}

fn follow_sref(place: SrefPlace, kind: u8) -> Option<Place>
    ensures { lefts_of result ≡ after kind (in_body (sref_left place)) }
{
    match place {
        SrefPlace::Start => match kind {
            ELFLAGS => Some(Place::Sref(SrefPlace::Flags)),
            PLEX => Some(Place::Sref(SrefPlace::Plex)),
            SNAME => Some(Place::Sref(SrefPlace::Name)),
            _ => None,
        },
        SrefPlace::Flags => match kind {
            PLEX => Some(Place::Sref(SrefPlace::Plex)),
            SNAME => Some(Place::Sref(SrefPlace::Name)),
            _ => None,
        },
        SrefPlace::Plex => match kind {
            SNAME => Some(Place::Sref(SrefPlace::Name)),
            _ => None,
        },
        SrefPlace::Name => match kind {
            STRANS => Some(Place::Sref(SrefPlace::Strans)),
            XY => Some(Place::Tail),
            _ => None,
        },
        SrefPlace::Strans => match kind {
            MAG => Some(Place::Sref(SrefPlace::Mag)),
            ANGLE => Some(Place::Sref(SrefPlace::Angle)),
            XY => Some(Place::Tail),
            _ => None,
        },
        SrefPlace::Mag => match kind {
            ANGLE => Some(Place::Sref(SrefPlace::Angle)),
            XY => Some(Place::Tail),
            _ => None,
        },
        SrefPlace::Angle => match kind {
            XY => Some(Place::Tail),
            _ => None,
        },
    }
}

fn follow_aref(place: ArefPlace, kind: u8) -> Option<Place>
    ensures { lefts_of result ≡ after kind (in_body (aref_left place)) }
{
    match place {
        ArefPlace::Start => match kind {
            ELFLAGS => Some(Place::Aref(ArefPlace::Flags)),
            PLEX => Some(Place::Aref(ArefPlace::Plex)),
            SNAME => Some(Place::Aref(ArefPlace::Name)),
            _ => None,
        },
        ArefPlace::Flags => match kind {
            PLEX => Some(Place::Aref(ArefPlace::Plex)),
            SNAME => Some(Place::Aref(ArefPlace::Name)),
            _ => None,
        },
        ArefPlace::Plex => match kind {
            SNAME => Some(Place::Aref(ArefPlace::Name)),
            _ => None,
        },
        ArefPlace::Name => match kind {
            STRANS => Some(Place::Aref(ArefPlace::Strans)),
            COLROW => Some(Place::Aref(ArefPlace::Colrow)),
            _ => None,
        },
        ArefPlace::Strans => match kind {
            MAG => Some(Place::Aref(ArefPlace::Mag)),
            ANGLE => Some(Place::Aref(ArefPlace::Angle)),
            COLROW => Some(Place::Aref(ArefPlace::Colrow)),
            _ => None,
        },
        ArefPlace::Mag => match kind {
            ANGLE => Some(Place::Aref(ArefPlace::Angle)),
            COLROW => Some(Place::Aref(ArefPlace::Colrow)),
            _ => None,
        },
        ArefPlace::Angle => match kind {
            COLROW => Some(Place::Aref(ArefPlace::Colrow)),
            _ => None,
        },
        ArefPlace::Colrow => match kind {
            XY => Some(Place::Tail),
            _ => None,
        },
    }
}

fn follow_text(place: TextPlace, kind: u8) -> Option<Place>
    ensures { lefts_of result ≡ after kind (in_body (text_left place)) }
{
    match place {
        TextPlace::Start => match kind {
            ELFLAGS => Some(Place::Text(TextPlace::Flags)),
            PLEX => Some(Place::Text(TextPlace::Plex)),
            LAYER => Some(Place::Text(TextPlace::Layer)),
            _ => None,
        },
        TextPlace::Flags => match kind {
            PLEX => Some(Place::Text(TextPlace::Plex)),
            LAYER => Some(Place::Text(TextPlace::Layer)),
            _ => None,
        },
        TextPlace::Plex => match kind {
            LAYER => Some(Place::Text(TextPlace::Layer)),
            _ => None,
        },
        TextPlace::Layer => match kind {
            TEXTTYPE => Some(Place::Text(TextPlace::Texttype)),
            _ => None,
        },
        TextPlace::Texttype => match kind {
            PRESENTATION => Some(Place::Text(TextPlace::Presentation)),
            PATHTYPE => Some(Place::Text(TextPlace::Pathtype)),
            WIDTH => Some(Place::Text(TextPlace::Width)),
            STRANS => Some(Place::Text(TextPlace::Strans)),
            XY => Some(Place::Text(TextPlace::Xy)),
            _ => None,
        },
        TextPlace::Presentation => match kind {
            PATHTYPE => Some(Place::Text(TextPlace::Pathtype)),
            WIDTH => Some(Place::Text(TextPlace::Width)),
            STRANS => Some(Place::Text(TextPlace::Strans)),
            XY => Some(Place::Text(TextPlace::Xy)),
            _ => None,
        },
        TextPlace::Pathtype => match kind {
            WIDTH => Some(Place::Text(TextPlace::Width)),
            STRANS => Some(Place::Text(TextPlace::Strans)),
            XY => Some(Place::Text(TextPlace::Xy)),
            _ => None,
        },
        TextPlace::Width => match kind {
            STRANS => Some(Place::Text(TextPlace::Strans)),
            XY => Some(Place::Text(TextPlace::Xy)),
            _ => None,
        },
        TextPlace::Strans => match kind {
            MAG => Some(Place::Text(TextPlace::Mag)),
            ANGLE => Some(Place::Text(TextPlace::Angle)),
            XY => Some(Place::Text(TextPlace::Xy)),
            _ => None,
        },
        TextPlace::Mag => match kind {
            ANGLE => Some(Place::Text(TextPlace::Angle)),
            XY => Some(Place::Text(TextPlace::Xy)),
            _ => None,
        },
        TextPlace::Angle => match kind {
            XY => Some(Place::Text(TextPlace::Xy)),
            _ => None,
        },
        TextPlace::Xy => match kind {
            STRING => Some(Place::Tail),
            _ => None,
        },
    }
}

fn follow_node(place: NodePlace, kind: u8) -> Option<Place>
    ensures { lefts_of result ≡ after kind (in_body (node_left place)) }
{
    match place {
        NodePlace::Start => match kind {
            ELFLAGS => Some(Place::Node(NodePlace::Flags)),
            PLEX => Some(Place::Node(NodePlace::Plex)),
            LAYER => Some(Place::Node(NodePlace::Layer)),
            _ => None,
        },
        NodePlace::Flags => match kind {
            PLEX => Some(Place::Node(NodePlace::Plex)),
            LAYER => Some(Place::Node(NodePlace::Layer)),
            _ => None,
        },
        NodePlace::Plex => match kind {
            LAYER => Some(Place::Node(NodePlace::Layer)),
            _ => None,
        },
        NodePlace::Layer => match kind {
            NODETYPE => Some(Place::Node(NodePlace::Nodetype)),
            _ => None,
        },
        NodePlace::Nodetype => match kind {
            XY => Some(Place::Tail),
            _ => None,
        },
    }
}

fn follow_box(place: BoxPlace, kind: u8) -> Option<Place>
    ensures { lefts_of result ≡ after kind (in_body (box_left place)) }
{
    match place {
        BoxPlace::Start => match kind {
            ELFLAGS => Some(Place::Box(BoxPlace::Flags)),
            PLEX => Some(Place::Box(BoxPlace::Plex)),
            LAYER => Some(Place::Box(BoxPlace::Layer)),
            _ => None,
        },
        BoxPlace::Flags => match kind {
            PLEX => Some(Place::Box(BoxPlace::Plex)),
            LAYER => Some(Place::Box(BoxPlace::Layer)),
            _ => None,
        },
        BoxPlace::Plex => match kind {
            LAYER => Some(Place::Box(BoxPlace::Layer)),
            _ => None,
        },
        BoxPlace::Layer => match kind {
            BOXTYPE => Some(Place::Box(BoxPlace::Boxtype)),
            _ => None,
        },
        BoxPlace::Boxtype => match kind {
            XY => Some(Place::Tail),
            _ => None,
        },
    }
}

/// The place after a record of the kind, where the grammar can go on with it.
pub fn follow(place: Place, kind: u8) -> Option<Place>
    ensures { lefts_of result ≡ after kind (left_of place) }
{
    match place {
        Place::Start => match kind {
            HEADER => Some(Place::Header),
            _ => None,
        },
        Place::Header => match kind {
            BGNLIB => Some(Place::Begun),
            _ => None,
        },
        Place::Begun => match kind {
            REFLIBS | FONTS | GENERATIONS | ATTRTABLE | FORMAT | MASK | ENDMASKS => Some(
                Place::Begun,
            ),
            LIBNAME => Some(Place::Named),
            _ => None,
        },
        Place::Named => match kind {
            REFLIBS | FONTS | GENERATIONS | ATTRTABLE | FORMAT | MASK | ENDMASKS => Some(
                Place::Named,
            ),
            UNITS => Some(Place::Cells),
            _ => None,
        },
        Place::Cells => match kind {
            BGNSTR => Some(Place::CellBegun),
            ENDLIB => Some(Place::End),
            _ => None,
        },
        Place::CellBegun => match kind {
            STRNAME => Some(Place::InCell),
            _ => None,
        },
        Place::InCell => match kind {
            BOUNDARY => Some(Place::Boundary(BoundaryPlace::Start)),
            PATH => Some(Place::Path(PathPlace::Start)),
            SREF => Some(Place::Sref(SrefPlace::Start)),
            AREF => Some(Place::Aref(ArefPlace::Start)),
            TEXT => Some(Place::Text(TextPlace::Start)),
            NODE => Some(Place::Node(NodePlace::Start)),
            BOX => Some(Place::Box(BoxPlace::Start)),
            ENDSTR => Some(Place::Cells),
            _ => None,
        },
        Place::Tail => match kind {
            PROPATTR => Some(Place::Property),
            ENDEL => Some(Place::InCell),
            _ => None,
        },
        Place::Property => match kind {
            PROPVALUE => Some(Place::Tail),
            _ => None,
        },
        Place::End => None,
        Place::Boundary(at) => follow_boundary(at, kind),
        Place::Path(at) => follow_path(at, kind),
        Place::Sref(at) => follow_sref(at, kind),
        Place::Aref(at) => follow_aref(at, kind),
        Place::Text(at) => follow_text(at, kind),
        Place::Node(at) => follow_node(at, kind),
        Place::Box(at) => follow_box(at, kind),
    }
}
