//! Figures as lines of text.
ghost use Rattle.std.specs.Prelude.{◌≡◌, ◌++◌, flat_map, IfOk, OnOk, string_bytes};
ghost use Rattle.wgr_show.specs.Metrics.{metric_line};

use std::alloc::{AllocError, Global};

/// A line for each metric, as in a Prometheus text file: its name, with its labels where it has any, a blank
/// and its value in decimal.
pub fn metrics_text(alloc: Global, metrics: &[(&str, u64)]) -> Result<Vec<u8>, AllocError>
    ensures { IfOk result (λ text. text.items ≡ flat_map (λ metric. metric_line metric.0.now metric.1) metrics.now) }
{
    let mut text = String::new(alloc);
    for metric in metrics {
        write_metric(metric.0, metric.1, &mut text)?;
    }
    Ok(text.into_bytes())
}

// Appends the line of a figure.
fn write_metric(name: &str, value: u64, out: &mut String) -> Result<(), AllocError>
    ensures { OnOk result (string_bytes out.new ≡ string_bytes out.old ++ metric_line name.now value) }
{
    writeln!(out, "{name} {value}")
}
