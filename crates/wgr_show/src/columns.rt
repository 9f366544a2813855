//! Columns that are aligned by blanks.
use std::alloc::{AllocError, Global};

// The most columns of a table.
const MOST_COLUMNS: usize = 7;

// The blanks between the widest cell of a column and the next column.
const GAP: usize = 2;

/// The lines of a text, whose cells are separated by tabs, with each column as wide as its widest cell. No line
/// ends with a blank.
pub(crate) fn aligned(alloc: Global, text: &str) -> Result<String, AllocError> {
    let mut widths = [0; MOST_COLUMNS];
    for line in text.lines() {
        widen(line, &mut widths);
    }
    let mut out = String::new(alloc);
    for line in text.lines() {
        write_line(line, &widths, &mut out)?;
    }
    Ok(out)
}

// Makes room for the cells of a line.
fn widen(line: &str, widths: &mut [usize]) {
    for (cell, width) in line.split('\t').zip(widths.iter_mut()) {
        *width = cell.len().max(*width);
    }
}

// Appends a line. Blanks are written before a cell rather than after one, so none ends a line.
fn write_line(line: &str, widths: &[usize], out: &mut String) -> Result<(), AllocError> {
    let mut blanks = 0;
    for (cell, width) in line.split('\t').zip(widths.iter()) {
        write_blanks(blanks, out)?;
        out.push_str(cell)?;
        blanks = width.saturating_sub(cell.len()).saturating_add(GAP);
    }
    out.push('\n')
}

fn write_blanks(count: usize, out: &mut String) -> Result<(), AllocError> {
    for _ in 0..count {
        out.push(' ')?;
    }
    Ok(())
}
