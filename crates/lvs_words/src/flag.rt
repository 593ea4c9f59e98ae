//! The options of the programs, by their names.

ghost use Rattle.std.specs.Prelude.{◌≡◌};
ghost use Rattle.lvs_words.specs.Flags.{flag_of, is_path, is_same, is_written};

/// An option of a command, or of the program that writes databases.
#[derive(Clone, Copy, Debug, PartialEq, Eq)]
pub enum Flag {
    Layout,
    Rules,
    Schematic,
    Shapes,
    Netlist,
    Report,
    Database,
    Page,
    Top,
    Workers,
}

/// The option of this name.
pub fn flag_of(name: &str) -> Option<Flag>
    ensures { result ≡ flag_of name.now }
{
    if name == "--layout" {
        Some(Flag::Layout)
    } else if name == "--rules" {
        Some(Flag::Rules)
    } else if name == "--schematic" {
        Some(Flag::Schematic)
    } else if name == "--shapes" {
        Some(Flag::Shapes)
    } else if name == "--netlist" {
        Some(Flag::Netlist)
    } else if name == "--report" {
        Some(Flag::Report)
    } else if name == "--database" {
        Some(Flag::Database)
    } else if name == "--page" {
        Some(Flag::Page)
    } else if name == "--top" {
        Some(Flag::Top)
    } else if name == "--workers" {
        Some(Flag::Workers)
    } else {
        None
    }
}

impl Flag {
    /// Whether they are one option.
    pub fn is_same(self, other: Flag) -> bool
        ensures { result ≡ is_same self other }
    {
        self == other
    }

    /// Whether its value is a path.
    pub fn is_path(self) -> bool
        ensures { result ≡ is_path self }
    {
        !matches!(self, Flag::Top | Flag::Workers)
    }

    /// Whether its value is the path of a file that is written.
    pub fn is_written(self) -> bool
        ensures { result ≡ is_written self }
    {
        matches!(
            self,
            Flag::Shapes | Flag::Netlist | Flag::Report | Flag::Database | Flag::Page
        )
    }
}
