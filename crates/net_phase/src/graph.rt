//! The graph of jobs by which a cell comes after all cells below it.
ghost use Rattle.std.specs.Prelude.{◌≡◌, ◌<◌, ◌^◌, ◌||◌, ℕ, false, get_or, length, IfOk};
ghost use Rattle.deep_tables.specs.Positions.{ArePositions};
ghost use Rattle.job_graph.specs.Graph.{AreAscending, has, lists};
ghost use Rattle.net_phase.specs.Graph.{AreBelowJobs, AreInputsTo, AreMarks, is_at_or_in};

use cell_graph::Design;
use deep_tables::positions;
use job_graph::Graph;
use std::alloc::{AllocError, Global};

// Marks a job and those that it waits for.
fn mark(job: u32, inputs: &[u32], marks: &mut [bool])
    requires job { job < length marks.old }
    requires inputs { AreAscending 0 inputs.now job }
    ensures count { length marks.new ≡ length marks.old }
    ensures marked { (i : ℕ) → get_or marks.new i false
        ≡ (get_or marks.old i false || is_at_or_in i job inputs.now) }
{
    marks[job as usize] = true;
    for input in inputs {
        marks[*input as usize] = true;
    }
}

// Marks the jobs of the cells below a job's cell: those of the cells that it places, and those for
// which these wait.
fn marks_below(
    alloc: Global,
    design: &Design,
    jobs: &[u32],
    graph: &[Vec<u32>],
    job: u32,
) -> Result<Vec<bool>, AllocError>
    requires job { job < length design.now.order }
    requires count { length jobs.now ≡ length design.now.cells }
    requires jobs { ArePositions design.now.order (length design.now.order) jobs.now }
    requires graph { AreInputsTo design.now job (lists graph.now) }
    ensures { IfOk result (λ v. AreMarks design.now job v.items) }
{
    design.sound();
    let cell = design.order()[job as usize];
    let mut marks = vec![in alloc; false; job as usize]?;
    for place in design.places(cell) {
        let child = jobs[place.cell as usize];
        mark(child, &graph[child as usize], &mut marks);
    }
    Ok(marks)
}

// The numbers of the marks that are set.
fn marked(alloc: Global, marks: &[bool]) -> Result<Vec<u32>, AllocError>
    requires { length marks.now < 2 ^ 32 }
    ensures ascend { IfOk result (λ v. AreAscending 0 v.items (length marks.now)) }
    ensures all { IfOk result (λ v. (i : ℕ) → has i v.items ≡ get_or marks.now i false) }
{
    let mut numbers = Vec::new(alloc);
    for (number, mark) in marks.iter().enumerate() {
        if *mark {
            numbers.push(number as u32)?;
        }
    }
    Ok(numbers)
}

/// The graph of jobs in which each cell waits for exactly the cells below it. Its cost is that of
/// the references and of what it holds, with a mark for each two reached cells.
pub fn below_graph(alloc: Global, design: &Design) -> Result<Graph, AllocError>
    ensures { IfOk result (AreBelowJobs design.now) }
{
    design.sound();
    let order = design.order();
    let jobs = positions(alloc, design.cells(), order)?;
    let mut graph = Vec::new(alloc);
    for job in 0..order.len() {
        let marks = marks_below(alloc, design, &jobs, &graph, job as u32)?;
        let inputs = marked(alloc, &marks)?;
        graph.push(inputs)?;
    }
    Graph::from_inputs(alloc, graph)
}
