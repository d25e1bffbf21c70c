//! The lines of a console that an outcome shows.

ghost use Rattle.std.specs.Prelude.{◌≡◌, ◌++◌, OnOk, map, nat_eq};
ghost use Rattle.std.specs.List.{starts_with};
ghost use Rattle.sweep_run.specs.Marks.{is_marked as is_marked_lem, line_marked, marked_text, without_prompts as without_prompts_lem};

use source_text::after_line;
use trace_text::add;
use wind_base::{NoMemory, first_bytes, line_len};

// A line without the shell's prompts, `-> `, at its front.
fn without_prompts(line: &[u8]) -> &[u8]
    ensures { result.now ≡ without_prompts_lem line.now }
{
    let mut rest = line;
    while let [b'-', b'>', b' ', after @ ..] = rest {
        rest = after;
    }
    rest
}

// Whether a line begins with a mark.
fn begins(line: &[u8], mark: &str) -> bool
    ensures { result ≡ starts_with nat_eq line.now mark.now }
{
    line.starts_with(mark.as_bytes())
}

// Whether a line begins with one of these texts, after the prompts at its front.
fn is_marked(marks: &[&str], line: &[u8]) -> bool
    ensures { result ≡ is_marked_lem (map (λ m. m.now) marks.now) line.now }
{
    let line = without_prompts(line);
    marks.iter().any(|mark| begins(line, mark))
}

// Adds a line that is marked, without its prompts, after the end of a line.
fn add_if_marked(text: &mut Vec<u8>, marks: &[&str], line: &[u8]) -> Result<(), NoMemory>
    ensures { OnOk result (text.new.items
        ≡ text.old.items ++ line_marked (map (λ m. m.now) marks.now) line.now) }
{
    if is_marked(marks, line) {
        add(text, b"\n")?;
        add(text, without_prompts(line))?;
    }
    Ok(())
}

/// Adds the marked lines of a console's text, each without its prompts and after the end of a line.
pub(crate) fn add_marked(text: &mut Vec<u8>, marks: &[&str], console: &[u8]) -> Result<(), NoMemory>
    ensures { OnOk result (text.new.items
        ≡ text.old.items ++ marked_text (map (λ m. m.now) marks.now) console.now) }
{
    let mut rest = console;
    while !rest.is_empty() {
        add_if_marked(text, marks, first_bytes(rest, line_len(rest)))?;
        rest = after_line(rest);
    }
    Ok(())
}
