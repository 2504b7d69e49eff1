// Traces as charts in SVG: tasks as rows, what they do as coloured bars, ticks as a grid, and the ceilings of objects below.
use crate::chart::{COLUMNS, Chart, DELAYED, INSIDE, READY, RUNNING, STARTING, WAITING};
use crate::names::{Names, number_of, unit_word};
use std::alloc::AllocError;

// The places of the bars, from the left and from above, the height of a row, and that of a bar in it.
const LEFT: usize = 190;

const TOP: usize = 44;

const ROW: usize = 30;

const BAR: usize = 20;

// How long the legend is.
const LEGEND: usize = 740;

// The smallest number of columns between two lines of the grid.
const GRID: u64 = 60;

// The kinds with their classes and names, from above to below if a stretch has several.
const KINDS: [(u8, &str, &str); 6] = [
    (INSIDE, "i", "inside an object"),
    (RUNNING, "r", "running"),
    (READY, "y", "ready"),
    (WAITING, "w", "waiting at an entry"),
    (DELAYED, "d", "delayed"),
    (STARTING, "s", "not started"),
];

const STYLE: &str =
    "<style>text{font:12px system-ui,sans-serif;fill:#222}.m{fill:#666}.t{font-weight:600}.g{stroke:#ddd}.l{stroke:#bbb}.i{fill:#d55e00}.r{fill:#0072b2}.y{fill:#e6c229}.w{fill:#cc79a7}.d{fill:#d9e2ec}.s{fill:#eee}</style>\n";

/// The head of a chart, up to the legend.
pub(crate) fn push_opening(
    out: &mut String,
    names: &Names,
    chart: &Chart,
    tasks: usize,
) -> Result<(), AllocError> {
    let width = LEFT.saturating_add(columns_of(chart)).saturating_add(30);
    let height = height_of(tasks, names);
    write!(
        out,
        "<svg xmlns=\"http://www.w3.org/2000/svg\" viewBox=\"0 0 {width} {height}\" width=\"{width}\" height=\"{height}\">\n"
    )?;
    write!(
        out,
        "<title>schedule</title>\n{STYLE}<rect width=\"{width}\" height=\"{height}\" fill=\"#fff\"/>\n"
    )?;
    push_legend(out)
}

// How many columns have something in them; there is room for the legend at least.
fn columns_of(chart: &Chart) -> usize {
    let used = chart.end() / chart.width();
    (used as usize).clamp(LEGEND, COLUMNS)
}

// Rows of tasks, the scale, and a line for each object.
fn height_of(tasks: usize, names: &Names) -> usize {
    let below = names.regions().len().min(64).saturating_mul(18);
    tasks
        .min(64)
        .saturating_mul(ROW)
        .saturating_add(below)
        .saturating_add(TOP + 40)
}

fn push_legend(out: &mut String) -> Result<(), AllocError> {
    let mut x = LEFT;
    for (_kind, class, name) in KINDS {
        write!(
            out,
            "<rect class=\"{class}\" x=\"{x}\" y=\"10\" width=\"14\" height=\"14\"/><text x=\"{}\" y=\"21\">{name}</text>\n",
            x.saturating_add(20)
        )?;
        x = x
            .saturating_add(50)
            .saturating_add(name.len().saturating_mul(7));
    }
    Ok(())
}

// How many ticks lie between two lines of the grid: 1, 2, 5, 10, 20 and so on.
fn grid_of(chart: &Chart, n: u64) -> u64 {
    let least = GRID.saturating_mul(chart.width());
    let mut ticks = 1u64;
    for _power in 0..18 {
        for factor in [1u64, 2, 5] {
            let some = ticks.saturating_mul(factor);
            if some.saturating_mul(n) >= least {
                return some;
            }
        }
        ticks = ticks.saturating_mul(10);
    }
    ticks
}

/// The lines of the grid with their moments, below the rows of tasks.
pub(crate) fn push_grid(
    out: &mut String,
    chart: &Chart,
    n: u64,
    tasks: usize,
) -> Result<(), AllocError> {
    let step = grid_of(chart, n);
    let bottom = TOP.saturating_add(tasks.min(64).saturating_mul(ROW));
    let lines = (COLUMNS as u64) / GRID + 1;
    for line in 0..lines {
        let tick = line.saturating_mul(step);
        let column = tick.saturating_mul(n) / chart.width();
        if column > COLUMNS as u64 || tick.saturating_mul(n) > chart.end() {
            break;
        }
        push_line(out, column as usize, tick, bottom)?;
    }
    Ok(())
}

fn push_line(out: &mut String, column: usize, tick: u64, bottom: usize) -> Result<(), AllocError> {
    let x = LEFT.saturating_add(column);
    write!(
        out,
        "<path class=\"g\" d=\"M{x}.5 {TOP}V{bottom}\"/><text class=\"m\" x=\"{x}\" y=\"{}\" text-anchor=\"middle\">{tick} ms</text>\n",
        bottom.saturating_add(16)
    )
}

/// The row of a task with its priority.
pub(crate) fn push_task(
    out: &mut String,
    names: &Names,
    chart: &Chart,
    task: usize,
    priority: u32,
) -> Result<(), AllocError> {
    let y = TOP.saturating_add(task.min(64).saturating_mul(ROW));
    push_label(out, names, task, priority, y.saturating_add(15))?;
    let mut from = 0;
    let mut kinds = 0u8;
    for next in 0..COLUMNS + 1 {
        let set = chart.set(task, next);
        if set != kinds || next == COLUMNS {
            push_bar(out, kinds, from, next, y)?;
            from = next;
            kinds = set;
        }
    }
    Ok(())
}

fn push_label(
    out: &mut String,
    names: &Names,
    task: usize,
    priority: u32,
    y: usize,
) -> Result<(), AllocError> {
    if task == 0 {
        return write!(
            out,
            "<text class=\"t\" x=\"8\" y=\"{y}\">environment</text><text class=\"m\" x=\"120\" y=\"{y}\">priority {priority}</text>\n"
        );
    }
    let unit = unit_word(names.unit_of_task(number_of(task)));
    write!(
        out,
        "<text class=\"t\" x=\"8\" y=\"{y}\">task {task} <tspan class=\"m\">{unit}</tspan></text><text class=\"m\" x=\"120\" y=\"{y}\">priority {priority}</text>\n"
    )
}

// A bar of one kind, or one above the other of several.
fn push_bar(
    out: &mut String,
    kinds: u8,
    from: usize,
    to: usize,
    y: usize,
) -> Result<(), AllocError> {
    let count = kinds.count_ones() as usize;
    if count == 0 || to <= from {
        return Ok(());
    }
    let height = BAR / count;
    let width = to - from;
    let x = LEFT.saturating_add(from);
    let mut above = y;
    for (kind, class, _name) in KINDS {
        if kinds & kind != 0 {
            write!(
                out,
                "<rect class=\"{class}\" x=\"{x}\" y=\"{above}\" width=\"{width}\" height=\"{height}\"/>"
            )?;
            above = above.saturating_add(height);
        }
    }
    out.push_str("\n")
}

/// The ceilings of objects, and the end of the chart.
pub(crate) fn push_close(out: &mut String, names: &Names, tasks: usize) -> Result<(), AllocError> {
    let mut y = TOP
        .saturating_add(tasks.min(64).saturating_mul(ROW))
        .saturating_add(36);
    for (number, region) in names.regions().iter().take(64).enumerate() {
        let unit = unit_word(names.unit_of_object(number_of(number)));
        let ceiling = region.ceiling;
        write!(
            out,
            "<text x=\"8\" y=\"{y}\">object {number} <tspan class=\"m\">{unit}</tspan></text><text class=\"m\" x=\"120\" y=\"{y}\">ceiling {ceiling}</text>\n"
        )?;
        y = y.saturating_add(18);
    }
    out.push_str("</svg>\n")
}
