//! The stimuli of a report, as they are written. Each goes into the buffer of the report, with no text of its own.

ghost use Rattle.std.specs.Prelude.{◌≡◌, ◌++◌, OnOk, flat_map};
ghost use Rattle.local_stim.specs.StimulusText.{row_line, stimulus_text};
ghost use Rattle.report.specs.Reports.{stimulus_lines};

use crate::parts::{PropStim, Stimuli};
use crate::words::{put_count, put_property};
use aig_model::Stimulus;
use ja_base::{Memory, Row, Rows};
use ja_text::Text;

fn put_row(text: &mut Text, row: &Row) -> Result<(), Memory>
    ensures { OnOk result (text.new ≡ text.old ++ row_line row.now) }
{
    for bit in row.as_slice() {
        text.push(if *bit { b"1" } else { b"0" })?;
    }
    text.push(b"\n")
}

fn put_rows(text: &mut Text, rows: &Rows) -> Result<(), Memory>
    ensures { OnOk result (text.new ≡ text.old ++ flat_map row_line rows.now) }
{
    for row in rows.as_slice() {
        put_row(text, row)?;
    }
    Ok(())
}

fn put_trace(text: &mut Text, prop: u32, stim: &Stimulus) -> Result<(), Memory>
    ensures { OnOk result (text.new ≡ text.old ++ stimulus_text prop stim.now) }
{
    text.push(b"1\n")?;
    put_property(text, prop)?;
    text.push(b"\n")?;
    put_row(text, stim.first())?;
    put_rows(text, stim.inputs())?;
    text.push(b".\n")?;
    Ok(())
}

fn put_stimulus(text: &mut Text, of: &PropStim) -> Result<(), Memory>
    ensures { OnOk result (text.new ≡ text.old ++ stimulus_lines of.now) }
{
    put_count(text, b"stimulus b", of.prop)?;
    put_trace(text, of.prop, &of.stim)
}

pub fn put_stimuli(text: &mut Text, stimuli: &Stimuli) -> Result<(), Memory>
    ensures { OnOk result (text.new ≡ text.old ++ flat_map stimulus_lines stimuli.now) }
{
    for of in stimuli.as_slice() {
        put_stimulus(text, of)?;
    }
    Ok(())
}
