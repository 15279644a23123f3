//! A stimulus written as its text.

ghost use Rattle.std.specs.Prelude.{◌≡◌, ◌++◌, IfOk, OnOk, flat_map};
ghost use Rattle.local_stim.specs.StimulusText.{row_line, stimulus_text};

use aig_model::Stimulus;
use ja_base::{Memory, Row, Rows};
use ja_text::Text;
use std::alloc::Global;

fn put_row(text: &mut Text, row: &Row) -> Result<(), Memory>
    ensures { OnOk result (text.new ≡ text.old ++ row_line row.now) }
{
    for bit in row.as_slice() {
        text.push(if *bit { b"1" } else { b"0" })?;
    }
    text.push(b"\n")
}

fn put_rows(text: &mut Text, rows: &Rows) -> Result<(), Memory>
    ensures { OnOk result (text.new ≡ text.old ++ flat_map row_line rows.now) }
{
    for row in rows.as_slice() {
        put_row(text, row)?;
    }
    Ok(())
}

/// The text of a stimulus of a property.
pub fn stim_text(alloc: Global, prop: u32, stim: &Stimulus) -> Result<Text, Memory>
    ensures { IfOk result (λ text. text ≡ stimulus_text prop stim.now) }
{
    let mut text = Text::new(alloc);
    text.push(b"1\nb")?;
    text.number(u64::from(prop))?;
    text.push(b"\n")?;
    put_row(&mut text, stim.first())?;
    put_rows(&mut text, stim.inputs())?;
    text.push(b".\n")?;
    Ok(text)
}
