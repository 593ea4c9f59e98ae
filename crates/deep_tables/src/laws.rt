//! What tables say together, where each job's value is right.
ghost use Rattle.std.specs.Prelude.{ℕ};
ghost use Rattle.deep_tables.specs.Circuits.{AllTablesLaw, CircuitsAtLaw, IsCellCircuit};
ghost use Rattle.deep_tables.specs.Frames.{FrameLaw, OpenFrameLaw};
ghost use Rattle.deep_tables.specs.Gates.{AreCellGates, AreMosCellGates, GatesAtLaw};
ghost use Rattle.deep_tables.specs.Gates.{RightGatesLaw};
ghost use Rattle.deep_tables.specs.Layers.{AreCellLayers, EmptyLayerLaw, LayerAtLaw};
ghost use Rattle.deep_tables.specs.Laws.{DownwardLaw, UpwardLaw};
ghost use Rattle.deep_tables.specs.Nets.{AreCellNets, NetsAtLaw, ReadNetsLaw, RightNetsLaw};
ghost use Rattle.deep_tables.specs.OverAny.{CircuitsOverAnyLaw, GatesOverAnyLaw, NetsOverAnyLaw};
ghost use Rattle.deep_tables.specs.OverAny.{OneGatesLaw, OneTablesLaw, PinsOverAnyLaw};
ghost use Rattle.deep_tables.specs.Pins.{AreCellPins, PinsAtLaw, RightPinsLaw};
ghost use Rattle.deep_tables.specs.Zones.{AreCellZones, DeviceZoneAtLaw, EmptyZoneLaw, ZoneAtLaw};
ghost use Rattle.deep_tables.specs.Zones.{ZoneEntryLaw};
ghost use Rattle.deep_tables.specs.declared.circuits.CellCircuit.{CellCircuit};
ghost use Rattle.deep_tables.specs.declared.gates.CellGates.{CellGates};
ghost use Rattle.deep_tables.specs.declared.layers.CellLayers.{CellLayers};
ghost use Rattle.deep_tables.specs.declared.nets.CellNets.{CellNets};
ghost use Rattle.deep_tables.specs.declared.pins.CellPins.{CellPins};
ghost use Rattle.deep_tables.specs.declared.zones.CellZones.{CellZones};

/// Where each job's disturbed squares are right, so is the table; and a right table has an entry of
/// each reached cell for each name, with its disturbed squares where the name is asked.
pub fn zone_table()
    ensures jobs { DownwardLaw CellZones AreCellZones }
    ensures entry { ZoneEntryLaw }
    ensures at { ZoneAtLaw }
    ensures device_at { DeviceZoneAtLaw }
    ensures empty { EmptyZoneLaw }
{}

/// Where each job's layers are right, so is the table; and a right table has those of each reached
/// cell.
pub fn layer_table()
    ensures jobs { UpwardLaw CellLayers AreCellLayers }
    ensures at { LayerAtLaw }
    ensures empty { EmptyLayerLaw }
{}

/// Disturbed squares in a grown hull, and those that a cell leaves, by the hull that the design has.
pub fn zone_frames()
    ensures disturbed { FrameLaw }
    ensures left { OpenFrameLaw }
{}

/// Where each job's nets are right, so is the table; right layers and right nets are right
/// together.
pub fn net_table()
    ensures jobs { UpwardLaw CellNets AreCellNets }
    ensures at { NetsAtLaw }
    ensures right { RightNetsLaw }
    ensures read { ReadNetsLaw }
{}

/// Where each job's gates are right, so is the table; over right nets they are right together.
pub fn gate_table()
    ensures jobs { UpwardLaw CellGates AreCellGates }
    ensures mos_jobs { UpwardLaw CellGates AreMosCellGates }
    ensures at { GatesAtLaw }
    ensures right { RightGatesLaw }
{}

/// Where each job's pins are right, so is the table; over right nets and gates they are right
/// together.
pub fn pin_table()
    ensures jobs { DownwardLaw CellPins AreCellPins }
    ensures at { PinsAtLaw }
    ensures right { RightPinsLaw }
{}

/// Where each job's circuit is right, so is the table; and all tables, each right by itself, are
/// right together.
pub fn circuit_table()
    ensures jobs { (unit : ℕ) → UpwardLaw CellCircuit (IsCellCircuit unit) }
    ensures at { CircuitsAtLaw }
    ensures all { AllTablesLaw }
{}

/// What is right over one choice of right tables is right over all, so that a phase may work over
/// the tables that it has.
pub fn over_any()
    ensures tables { OneTablesLaw }
    ensures nets { NetsOverAnyLaw }
    ensures one_gates { OneGatesLaw }
    ensures gates { GatesOverAnyLaw }
    ensures pins { PinsOverAnyLaw }
    ensures circuits { CircuitsOverAnyLaw }
{}
