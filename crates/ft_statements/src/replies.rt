//! What is printed for a reply, and the names of tables.
ghost use Rattle.std.specs.Prelude.{◌≡◌, map, IfOk};
ghost use Rattle.shell_text.specs.Print as print;
ghost use Rattle.shell_text.specs.Print.{Prints};
ghost use Rattle.ft_values.specs.Cells.{shown_value};
ghost use Rattle.ft_commands.specs.Views as views;
ghost use Rattle.ft_statements.specs.Replies as forms;

use ft_commands::Reply;
use ft_values::Value;
use shell_text::{Cell, Grid, PrintFault, Settings, write_grid};
use std::alloc::{AllocError, Global};
use std::io::Write;

// A value as it is printed.
fn cell_of(value: Value) -> Cell
    ensures { print.value_of_cell result ≡ forms.cell_value (shown_value value) }
{
    match value {
        Value::Null => Cell::Null,
        Value::Int(number) => Cell::Int(number),
        Value::Text(text) => Cell::Text(text),
    }
}

fn row_of(alloc: Global, values: Vec<Value>) -> Result<Vec<Cell>, AllocError>
    ensures { IfOk result (λ row. map print.value_of_cell row.items
        ≡ map forms.cell_value (views.cells_of values)) }
{
    let mut row = Vec::with_capacity(alloc, values.len())?;
    for value in values {
        row.push(cell_of(value))?;
    }
    Ok(row)
}

fn rows_of(alloc: Global, rows: Vec<Vec<Value>>) -> Result<Vec<Vec<Cell>>, AllocError>
    ensures { IfOk result (λ cells. map (λ row. map print.value_of_cell row.items) cells.items
        ≡ map (map forms.cell_value) (views.rows_of rows)) }
{
    let mut cells = Vec::with_capacity(alloc, rows.len())?;
    for row in rows {
        cells.push(row_of(alloc, row)?)?;
    }
    Ok(cells)
}

// A grid as it is printed.
fn grid_of(alloc: Global, grid: ft_commands::Grid) -> Result<Grid, AllocError>
    ensures { IfOk result (λ shown. print.table_of shown
        ≡ forms.printed_table (views.grid_of grid)) }
{
    let rows = rows_of(alloc, grid.rows)?;
    Ok(Grid {
        names: grid.names,
        rows,
    })
}

/// Prints a reply as the settings say. The text is made whole before the first byte goes out: after
/// `Memory` nothing was written, after `Write` a front of it and not the whole.
pub fn write_reply<W: Write>(
    alloc: Global,
    settings: &Settings,
    reply: Reply,
    out: &mut W,
) -> Result<(), PrintFault>
    ensures { Prints (forms.reply_text settings.now (views.reply_of reply)) (W.contents out.old)
        (W.contents out.new) result }
{
    match reply {
        Reply::Done => Ok(()),
        Reply::Rows(grid) => {
            let Ok(grid) = grid_of(alloc, grid) else {
                return Err(PrintFault::Memory);
            };
            write_grid(alloc, settings, &grid, out)
        }
    }
}
