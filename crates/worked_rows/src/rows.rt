//! The rows of a page.
ghost use Rattle.std.specs.Prelude.{◌≡◌, ◌<◌, ◌++◌, ◌∷◌, [], IfOk, OnOk, string_bytes, vec_len};
ghost use Rattle.cdi_script.specs.Bytes.{feed};
ghost use Rattle.worked_rows.specs.Rows.{IsBlockLine, TakesLine};

use crate::counted::Times;
use crate::difference::Difference;
use crate::markdown::{Fence, heading_of};
use std::alloc::{AllocError, Global};

/// A script, and what it is to print.
#[derive(Drop)]
pub struct Row<'t> {
    pub name: &'t str,
    /// Whether the program's option `--quiet` is given.
    pub quiet: bool,
    /// Whether each line of the row's blocks says how many times it is there.
    pub counted: bool,
    /// The script. Where no line is counted, it is each line with a line feed.
    pub script: Vec<u8>,
    /// Each wanted line, with a line feed.
    pub wanted: String,
    /// For each wanted line the line of the script that stands last before it.
    pub commands: Vec<&'t str>,
    /// The last line of the script.
    pub last: &'t str,
}

/// A line of a row's block.
#[derive(Clone, Copy)]
pub enum BlockLine<'t> {
    Answer(&'t str),
    Script(&'t str),
}

/// What a line of a row's block is: behind `> ` an answer, and any other line a line of the script.
pub fn block_line(line: &str) -> BlockLine<'_>
    ensures { IsBlockLine line.now result }
{
    match line.strip_prefix("> ") {
        Some(answer) => BlockLine::Answer(answer),
        None => BlockLine::Script(line),
    }
}

impl<'t> Row<'t> {
    /// A row without a line.
    fn new(alloc: Global, name: &'t str) -> Row<'t> {
        Row {
            name,
            quiet: false,
            counted: false,
            script: Vec::new(alloc),
            wanted: String::new(alloc),
            commands: Vec::new(alloc),
            last: "",
        }
    }

    /// Takes a line of the row's block.
    fn push(&mut self, line: BlockLine<'t>) -> Result<(), AllocError>
        ensures { OnOk result (TakesLine line.entry self.old self.new) }
    {
        match line {
            BlockLine::Answer(answer) => {
                self.commands.push(self.last)?;
                push_with_feed(&mut self.wanted, answer)
            }
            BlockLine::Script(text) => {
                self.last = text;
                push_line(&mut self.script, text)
            }
        }
    }

    /// Takes a line of the row's counted block, and tells whether it has a count and no unknown escape.
    fn push_counted(&mut self, line: BlockLine<'t>) -> Result<bool, AllocError> {
        match line {
            BlockLine::Answer(answer) => match Times::of_line(answer) {
                Some(times) => self.want_times(times),
                None => Ok(false),
            },
            BlockLine::Script(text) => {
                self.last = text;
                match Times::of_line(text) {
                    Some(times) => times.push_to(&mut self.script),
                    None => Ok(false),
                }
            }
        }
    }

    /// Wants some answers so many times.
    fn want_times(&mut self, times: Times<'t>) -> Result<bool, AllocError> {
        for _ in 0..times.count {
            self.want_each(times.text)?;
        }
        Ok(true)
    }

    /// Wants the answers that `\n` separates.
    fn want_each(&mut self, answers: &'t str) -> Result<(), AllocError> {
        for answer in answers.split("\\n") {
            self.push(BlockLine::Answer(answer))?;
        }
        Ok(())
    }
}

fn push_line(script: &mut Vec<u8>, line: &str) -> Result<(), AllocError>
    ensures { OnOk result (script.new.items ≡ script.old.items ++ line.now ++ feed ∷ []) }
{
    script.extend_from_slice(line.as_bytes())?;
    script.push(b'\n')?;
    Ok(())
}

fn push_with_feed(text: &mut String, line: &str) -> Result<(), AllocError>
    ensures { OnOk result (string_bytes text.new ≡ string_bytes text.old ++ line.now ++ feed ∷ []) }
{
    text.push_str(line)?;
    text.push('\n')
}

/// Where a line of a page stands: in prose, in a row's block or in another one, and with how many backticks the block
/// began.
#[derive(Clone, Copy)]
enum Place {
    Prose,
    RowBlock(usize),
    OtherBlock(usize),
}

/// The rows of the lines of a page so far.
#[derive(Drop)]
struct Page<'t> {
    alloc: Global,
    rows: Vec<Row<'t>>,
    /// The nearest heading above.
    heading: &'t str,
    place: Place,
}

impl<'t> Page<'t> {
    fn take_line(&mut self, line: &'t str) -> Result<(), Difference<'t>> {
        let fence = Fence::of_line(line);
        match (self.place, fence) {
            (Place::Prose, Some(fence)) => self.begin_block(fence),
            (Place::Prose, None) => {
                if let Some(heading) = heading_of(line) {
                    self.heading = heading;
                }
                Ok(())
            }
            (Place::RowBlock(ticks), Some(fence)) | (Place::OtherBlock(ticks), Some(fence))
                if fence.ends(ticks) => {
                self.place = Place::Prose;
                Ok(())
            }
            (Place::RowBlock(_), _) => self.take_row_line(line),
            (Place::OtherBlock(_), _) => Ok(()),
        }
    }

    fn take_row_line(&mut self, line: &'t str) -> Result<(), Difference<'t>> {
        let Some(row) = self.rows.last_mut() else {
            return Err(Difference::NothingBefore(self.heading));
        };
        if !row.counted {
            row.push(block_line(line))?;
        } else if !row.push_counted(block_line(line))? {
            return Err(Difference::Counted(row.name, line));
        }
        Ok(())
    }

    fn begin_block(&mut self, fence: Fence<'t>) -> Result<(), Difference<'t>> {
        let mut words = fence.info.split_whitespace();
        if words.next() != Some("script") {
            self.place = Place::OtherBlock(fence.ticks);
            return Ok(());
        }
        self.place = Place::RowBlock(fence.ticks);
        if fence.info.trim() == "script continued" {
            return Ok(());
        }
        let mut row = Row::new(self.alloc, self.heading);
        for word in words {
            match word {
                "--quiet" => row.quiet = true,
                "--counted" => row.counted = true,
                option => {
                    return Err(Difference::UnknownOption {
                        row: self.heading,
                        option,
                    });
                }
            }
        }
        self.rows.push(row)?;
        Ok(())
    }
}

/// The rows of a page, in their order. It takes memory for a copy of the page.
pub fn rows_of<'t>(alloc: Global, text: &'t str) -> Result<Vec<Row<'t>>, Difference<'t>>
    ensures { IfOk result (λ rows. 0 < vec_len rows) }
{
    let mut page = Page {
        alloc,
        rows: Vec::new(alloc),
        heading: "",
        place: Place::Prose,
    };
    for line in text.lines() {
        page.take_line(line)?;
    }
    if !matches!(page.place, Place::Prose) {
        return Err(Difference::OpenBlock(page.heading));
    }
    if page.rows.is_empty() {
        return Err(Difference::NoRow);
    }
    Ok(page.rows)
}
