//! The premises of the laws can be met: a small design without device rules, and one with a
//! transistor in a child and one across child and parent.

ghost use Rattle.std.specs.Prelude.{◌≡◌, ◌⊎◌, ◌↔◌, ℕ, List};
ghost use Rattle.geo_base.specs.declared.shapes.Square.{Square};
ghost use Rattle.flat_layout.specs.Expanded.{AreTablesRight, IsExpanded, IsFlatNetlist};
ghost use Rattle.flat_layout.specs.Expanded.{IsPartOfNet, ShowsNode};
ghost use Rattle.flat_layout.specs.Gates.{geometry, IsListedGate, IsFound, InGate, IsSettled};
ghost use Rattle.flat_layout.specs.Layers.{InFlat, IsKept};
ghost use Rattle.flat_layout.specs.Layout.{IsReached};
ghost use Rattle.flat_layout.specs.Nets.{AreTables, AreRegions};
ghost use Rattle.flat_layout.specs.Regions.{Node, At, Ground, InOneRegion, IsNode, flat};
ghost use Rattle.law_samples.specs.Expansion.{IsGood, IsAcross, IsAcrossDevice, IsChildDevice};
ghost use Rattle.law_samples.specs.Expansion.{node_at, top_net, flat_nodes};
ghost use Rattle.law_samples.specs.Refused.{ChildNetsLaw, ExchangedLaw, FurtherCircuitLaw};
ghost use Rattle.law_samples.specs.Refused.{LongCallLaw, OtherNameLaw, SecondCopyLaw};
ghost use Rattle.law_samples.specs.Sample.{sample_design, sample_wiring, sample_tables};
ghost use Rattle.law_samples.specs.Sample.{small_circuits, sample_netlist, sample_rules};
ghost use Rattle.law_samples.specs.Sample.{sample_level};
ghost use Rattle.law_samples.specs.Transistors.{at, sides, gate_design, gate_wiring, gate_tables};
ghost use Rattle.law_samples.specs.Transistors.{gate_circuits, gate_netlist, gate_rules, rule};
ghost use Rattle.plain_netlist.specs.Lists.{IsListed};
ghost use Rattle.plain_netlist.specs.Netlist.{DeviceRow, Slot, InOneNet, HasDevice, IsTerminal};
ghost use Rattle.plain_netlist.specs.Netlist.{IsOnPin};

/// A child and a parent whose rectangles overlap: their tables are right, and their nets the
/// regions of what they keep.
pub fn sample_nets()
    ensures tables { AreTables sample_design sample_wiring sample_tables sample_level }
    ensures regions { (cell : ℕ) → IsReached sample_design cell
        → AreRegions sample_design sample_wiring sample_tables cell }
{}

/// Their table of pins and circuits is right, and the netlist expands to the flat one; it has no
/// devices, since there are no device rules.
pub fn sample_circuits()
    ensures right { AreTablesRight sample_design sample_wiring sample_tables small_circuits
        sample_netlist sample_rules 1000 sample_level }
    ensures netlist { IsFlatNetlist sample_design sample_wiring sample_tables small_circuits
        sample_netlist sample_rules 1000 0 }
{}

/// A child with a transistor, placed mirrored in a parent whose poly crosses the child's active: a
/// transistor across both. The child doesn't keep what lies under that poly, each gate is good, and
/// each stands in its cell's list alone.
pub fn sample_gates()
    ensures drawn { IsAcross 0 1 2 }
    ensures crossed { InFlat gate_design 0 sides (at 3) × (IsKept gate_design 0 sides (at 3) → ⊥) }
    ensures child { (s : Square) → IsListedGate gate_design (geometry gate_wiring rule) 0 s
        ↔ (s ≡ at 1) }
    ensures across { (s : Square) → IsListedGate gate_design (geometry gate_wiring rule) 1 s
        ↔ (s ≡ at 1) }
    ensures child_good { IsGood 0 0 1 2 }
    ensures across_good { IsGood 1 0 1 2 }
    ensures found { (cell : ℕ) (s : Square) → IsReached gate_design cell
        → IsSettled gate_design (geometry gate_wiring rule) cell s
        → (f : IsFound gate_design (geometry gate_wiring rule) cell s)
        × ((g : IsFound gate_design (geometry gate_wiring rule) cell s) → (g.path ≡ f.path)
        × InGate gate_design (geometry gate_wiring rule) f.end f.square g.square) }
{}

/// Their tables of nets, pins, gates and circuits are right, and the netlist expands to that of the
/// flat layout.
pub fn sample_transistors()
    ensures right { AreTablesRight gate_design gate_wiring gate_tables gate_circuits gate_netlist
        gate_rules 1000 sample_level }
    ensures regions { (cell : ℕ) → IsReached gate_design cell
        → AreRegions gate_design gate_wiring gate_tables cell }
    ensures expanded { IsExpanded gate_design gate_wiring gate_tables gate_circuits gate_netlist
        gate_rules 1000 1 1 }
    ensures netlist { IsFlatNetlist gate_design gate_wiring gate_tables gate_circuits gate_netlist
        gate_rules 1000 1 }
{}

/// That netlist written out: two devices, one net for both drains, which a text names, and one for
/// both bulks; both are pins.
pub fn sample_devices()
    ensures devices { (path : List ℕ) (i : ℕ) (row : DeviceRow)
        → HasDevice gate_netlist 1 path i row
        ↔ (IsAcrossDevice path i row ⊎ IsChildDevice path i row) }
    ensures part { (a : Slot) → IsTerminal gate_netlist 1 a
        → IsPartOfNet gate_design gate_tables gate_circuits 1 a.path a.net (top_net a.path a.net) }
    ensures one { (a b : Slot) → IsTerminal gate_netlist 1 a → IsTerminal gate_netlist 1 b
        → InOneNet gate_netlist 1 a b ↔ (top_net a.path a.net ≡ top_net b.path b.net) }
    ensures shows { (a : Slot) → IsTerminal gate_netlist 1 a
        → ShowsNode gate_design gate_tables gate_circuits 1 a.path a.net (node_at a.path a.net) }
    ensures nets { (a b : Slot) → IsTerminal gate_netlist 1 a → IsTerminal gate_netlist 1 b
        → InOneNet gate_netlist 1 a b ↔ (node_at a.path a.net ≡ node_at b.path b.net) }
    ensures pins { (a : Slot) → IsTerminal gate_netlist 1 a → IsOnPin gate_netlist 1 a
        ↔ ((node_at a.path a.net ≡ Ground 0) ⊎ (node_at a.path a.net ≡ At 0 (at 2))) }
    ensures nodes { (n : Node) → IsNode gate_wiring (flat gate_design gate_wiring 1) n
        ↔ IsListed n flat_nodes }
    ensures regions { (m n : Node) → IsNode gate_wiring (flat gate_design gate_wiring 1) m
        → IsNode gate_wiring (flat gate_design gate_wiring 1) n →
        InOneRegion gate_wiring (flat gate_design gate_wiring 1) m n ↔ (m ≡ n) }
{}

/// The child's nets are right by themselves; and wrong variants aren't right: a second copy of a
/// rectangle, a call with a net too many, another name, a further circuit, source and drain
/// exchanged.
pub fn sample_refusals()
    ensures nets { ChildNetsLaw }
    ensures copy { SecondCopyLaw }
    ensures call { LongCallLaw }
    ensures name { OtherNameLaw }
    ensures further { FurtherCircuitLaw }
    ensures exchanged { ExchangedLaw }
{}
