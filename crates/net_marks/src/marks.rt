//! Marks at nets of a cell.
ghost use Rattle.std.specs.Prelude.{◌≡◌, ◌<◌, ◌==◌, ◌&&◌, ◌||◌, ℕ, true, false};
ghost use Rattle.std.specs.Prelude.{length, map, get_or};
ghost use Rattle.std.specs.List.{list_any};
ghost use Rattle.deep_tables.specs.Gates.{plain_gate};
ghost use Rattle.net_marks.specs.Marks.{has_terminal};

use deep_tables::Gate;

fn mark(net: u32, marks: &mut [bool])
    requires { net < length marks.old }
    ensures count { length marks.new ≡ length marks.old }
    ensures marked { (x : ℕ) → get_or marks.new x false ≡ ((x == net) || get_or marks.old x false) }
{
    marks[net as usize] = true;
}

/// Marks a net, where that is wanted. Constant time.
pub fn mark_if(net: u32, wanted: bool, marks: &mut [bool])
    requires { net < length marks.old }
    ensures count { length marks.new ≡ length marks.old }
    ensures marked { (x : ℕ) → get_or marks.new x false
        ≡ ((wanted && (x == net)) || get_or marks.old x false) }
{
    if wanted {
        mark(net, marks);
    }
}

// Marks some nets.
fn mark_nets(nets: &[u32], marks: &mut [bool])
    requires { (x : ℕ) → list_any (λ n. x == n) nets.now ≡ true → x < length marks.old }
    ensures count { length marks.new ≡ length marks.old }
    ensures marked { (x : ℕ) → get_or marks.new x false
        ≡ (list_any (λ n. x == n) nets.now || get_or marks.old x false) }
{
    for net in nets {
        mark(*net, marks);
    }
}

/// Marks the nets of the terminals of good gates. Linear in the gates.
pub fn mark_gates(gates: &[Gate], marks: &mut [bool])
    requires { (x : ℕ) → has_terminal x (map plain_gate gates.now) ≡ true → x < length marks.old }
    ensures count { length marks.new ≡ length marks.old }
    ensures marked { (x : ℕ) → get_or marks.new x false
        ≡ (has_terminal x (map plain_gate gates.now) || get_or marks.old x false) }
{
    for gate in gates {
        mark_nets(gate.terminal_nets(), marks);
    }
}
